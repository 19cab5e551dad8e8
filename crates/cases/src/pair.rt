// Two sheets of equalities with lists of the same words: their answers are the same bytes exactly when they say the same of the
// words that stay.
use crate::draw::Draw;
use crate::page::{Constraint, Sheet, Term, Words};
use crate::tally::{self, Tally};
use crate::{every, trial};
use sheet::Kind;

// Adds q times equality e to equality i.
fn add(sheet: &mut Sheet, i: usize, q: u32, e: usize) {
    let most = sheet.most();
    let added = sheet.constraints.get(e).copied();
    if let (Some(added), Some(equality)) = (added, sheet.constraints.get_mut(i)) {
        equality.add(q, &added, most);
    }
}

// Adds q times the word x to both sides of equality i.
fn add_word(sheet: &mut Sheet, i: usize, q: u32, x: u8) {
    let most = sheet.most();
    let added = Term::from(0).with(x, q);
    if let Some(equality) = sheet.constraints.get_mut(i) {
        equality.left.add(1, &added, most);
        equality.right.add(1, &added, most);
    }
}

// One step after which the equalities say the same: a multiple of one is added to another, one is taken an odd number of
// times, or a number is added to both sides of one.
fn step(draw: &mut Draw, sheet: &mut Sheet) {
    let i = draw.below(8) as usize;
    let e = draw.below(8) as usize;
    let q = draw.below(8);
    let x = draw.below(5) as u8;
    match draw.below(4) {
        0..=1 if e != i => add(sheet, i, q, e),
        2 => add(sheet, i, q & 6, i),
        3 if x < sheet.words => add_word(sheet, i, q, x),
        _ => {},
    }
}

// Changes a number on the left of one of the constraints.
fn change(draw: &mut Draw, sheet: &mut Sheet) {
    let any = draw.below(4) as usize;
    let x = draw.below(5) as u8;
    let q = 1 + draw.below(7);
    let most = sheet.most();
    let added = if x < sheet.words {
        Term::from(0).with(x, q)
    } else {
        Term::from(q)
    };
    let i = if any < sheet.constraints.len() {
        any
    } else {
        0
    };
    if let Some(c) = sheet.constraints.get_mut(i) {
        c.left.add(1, &added, most);
    }
}

// Draws two sheets and a list, tries them both ways, and answers whether all is as it must be. `None` stands for a call that came
// to nothing.
pub fn pair(draw: &mut Draw, tally: &mut Tally) -> Option<bool> {
    let shape = draw.shape(4);
    let sheet = draw.sheet(shape, &[Kind::Equal])?;
    let mut other = sheet.clone().ok()?;
    for _ in 0..12 {
        step(draw, &mut other);
    }
    if draw.below(2) == 0 {
        change(draw, &mut other);
    }
    let list = draw.list(sheet.words)?;
    let mut turned = Words::new();
    for x in list.iter().rev() {
        turned.try_push(*x).ok()?;
    }
    tally::more(&mut tally.pairs);
    let first = trial::call(&sheet, &list)?;
    let second = trial::call(&other, &turned)?;
    first.answer(&sheet)?;
    second.answer(&other)?;
    let one_answer = first.sheet == second.sheet;
    let one_projection = every::alike(&sheet, &list, &other, &list)?;
    if one_answer && one_projection {
        tally::more(&mut tally.same);
    }
    Some(one_answer == one_projection)
}
