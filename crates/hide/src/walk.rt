// Trying a word and walking over the list.
ghost use Rattle.std.specs.Prelude.{◌≡◌, not, ◌&&◌, Some, None, true, ◌≤◌, ◌<◌, length, replicate};
ghost use Rattle.meaning.specs.Lists.{Each, same, any_of};
ghost use Rattle.meaning.specs.Sheet.{has};
ghost use Rattle.meaning.specs.Layers.{chosen};
ghost use Rattle.meaning.specs.Walk.{walk_in, list_order, all_hidden, walks_from};
ghost use Rattle.sheet.specs.Others.{others_of};
ghost use Rattle.sheet.specs.Work.{constraints_of, equalities_of};
ghost use Rattle.sheet.specs.Working.{IsWorking};
ghost use Rattle.layers.specs.Choice.{choice_of};
ghost use Rattle.hide.specs.Fate.{fate_numbers};
ghost use Rattle.hide.specs.Steps.{Follows, IsTried, IsTurned, walked, state};

use crate::Fate;
use layers::{Choice, Known};
use sheet::{Others, Sheet};

// Layer2, where no equality has x and an other has it.
fn try_free(s: &mut Sheet, x: usize) -> Fate
    requires sheet { IsWorking s.old × (x < 16) }
    requires none { choice_of s.old.width None ≡ chosen s.old.width x (equalities_of s.old.equalities) }
    requires has { any_of (has x) (constraints_of (others_of s.old.others)) ≡ true }
    ensures { IsTried x s.old s.new result }
{
    if layers::has_spare(s.others.as_slice(), x, s.width, s.width) {
        layers::drop_with(&mut s.others, x);
        Fate::Layer2
    } else {
        Fate::Left
    }
}

// Layer1, and Layer2 where x is left, by the equality that is chosen.
fn try_bound(s: &mut Sheet, x: usize, c: Choice) -> Fate
    requires sheet { IsWorking s.old × (x < 16) }
    requires below { c.power < s.old.width }
    requires chosen { choice_of s.old.width (Some c) ≡ chosen s.old.width x (equalities_of s.old.equalities) }
    ensures { IsTried x s.old s.new result }
{
    let p = s.width;
    let known = Known {
        word: x,
        power: c.power,
        row: row::unit(&s.equalities.rows, c.at, x, p),
        width: p,
    };
    let mut next = Others::new();
    known.replace_sides(s.others.as_slice(), &mut next);
    let left = layers::sides_have(next.as_slice(), x);
    if left && !layers::has_spare(next.as_slice(), x, c.power, p) {
        return Fate::Left;
    }
    s.others.replace(next.as_slice());
    known.replace_rows(&mut s.equalities, c.at);
    if left {
        layers::drop_with(&mut s.others, x);
        Fate::Layer2
    } else {
        Fate::Layer1
    }
}

// The try of word x on the working sheet.
fn try_in(s: &mut Sheet, x: usize) -> Fate
    requires { IsWorking s.old × (x < 16) }
    ensures { IsTried x s.old s.new result }
{
    match layers::choose(&s.equalities, x, s.width) {
        Some(c) => try_bound(s, x, c),
        None if layers::sides_have(s.others.as_slice(), x) => try_free(s, x),
        None => Fate::Absent,
    }
}

// The turn of word x, whose fate so far is given, at any position of any list: it is passed over where it is hidden, and the sheet is
// tidied after a success.
fn step(s: &mut Sheet, x: usize, fate: Fate) -> Fate
    requires sheet { IsWorking s.old × (s.old.equalities.count ≤ 16) }
    requires word { x < 16 }
    ensures follows { Follows s.old s.new }
    ensures few { s.new.equalities.count ≤ 16 }
    ensures walk { IsTurned x s.old fate s.new result }
{
    if fate != Fate::Left {
        return fate;
    }
    let tried = try_in(s, x);
    if tried != Fate::Left {
        tidy::tidy_in(s);
    }
    tried
}

// One walk over the list, in list order: whether it hid a word and left one. (The fates lie beside the list, as the
// definitions have them.)
fn walk(s: &mut Sheet, list: &[u8], fates: &mut [Fate]) -> bool
    requires sheet { IsWorking s.old × (s.old.equalities.count ≤ 16) }
    requires words { Each (λ x. x < 16) list.now }
    requires each { length fates.old ≡ length list.now }
    ensures follows { Follows s.old s.new }
    ensures few { s.new.equalities.count ≤ 16 }
    ensures walk { walk_in list_order s.old.width list.now (walked s.old fates.old) ≡ walked s.new fates.new }
    ensures more { result ≡ not (same (fate_numbers fates.new) (fate_numbers fates.old)) && not (all_hidden (fate_numbers fates.new)) }
{
    let mut hid = false;
    let mut left = false;
    for (i, &x) in list.iter().enumerate() {
        let before = fates[i];
        let after = step(s, x as usize, before);
        fates[i] = after;
        hid |= after != before;
        left |= after == Fate::Left;
    }
    hid && left
}

// Walks until every listed word is hidden or a walk hides none: how many.
pub fn walks(s: &mut Sheet, list: &[u8], fates: &mut [Fate]) -> usize
    requires sheet { IsWorking s.old × (s.old.equalities.count ≤ 16) }
    requires words { Each (λ x. x < 16) list.now }
    requires left { fate_numbers fates.old ≡ replicate (length list.now) 0 }
    ensures follows { Follows s.old s.new }
    ensures few { s.new.equalities.count ≤ 16 }
    ensures walks { state s.new fates.new result ≡ walks_from list_order (length list.now) s.old.width list.now (walked s.old fates.old) }
{
    for n in 0..list.len() {
        if !walk(s, list, fates) {
            return n + 1;
        }
    }
    list.len()
}
