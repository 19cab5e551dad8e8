// Sheets over the words x, y, z with what must come of them, each a text: the width, the sheet, the answer, the listed words with
// their fates, and the number of walks, in parts between bars.
use crate::page::{Constraint, Sheet, Term};
use crate::tally;
use crate::trial::{self, Heard, Listed};
use arrayvec::ArrayVec;
use hide::Fate;
use sheet::Kind;
use std::io::{self, ErrorKind};

const WORDS: [(char, u8); 3] = [('x', 0), ('y', 1), ('z', 2)];

fn number(text: &str) -> Option<u32> {
    text.parse().ok()
}

// What stands before the word that a text ends with, and the word.
fn word(text: &str) -> Option<(&str, u8)> {
    WORDS
        .iter()
        .find_map(|(letter, x)| Some((text.strip_suffix(*letter)?, *x)))
}

// A sum of constants and of words behind their coefficients, modulo 2^32. A coefficient that is not written is 1.
fn term(text: &str) -> Option<Term> {
    let mut term = Term::from(0);
    for part in text.split('+') {
        let part = part.trim();
        let added = match word(part) {
            Some(("", x)) => Term::from(0).with(x, 1),
            Some((coefficient, x)) => Term::from(0).with(x, number(coefficient)?),
            None => Term::from(number(part)?),
        };
        term.add(1, &added, u32::MAX);
    }
    Some(term)
}

// What stands before and behind the sign of a constraint, and the kind that the sign stands for.
fn sides(text: &str) -> Option<(Kind, &str, &str)> {
    let Some((left, right)) = text.split_once('=') else {
        let (left, right) = text.split_once('<')?;
        return Some((Kind::Below, left, right));
    };
    if let Some(left) = left.strip_suffix('!') {
        return Some((Kind::Different, left, right));
    }
    if let Some(left) = left.strip_suffix('<') {
        return Some((Kind::AtMost, left, right));
    }
    Some((Kind::Equal, left, right))
}

fn constraint(text: &str) -> Option<Constraint> {
    let (kind, left, right) = sides(text)?;
    Some(Constraint {
        kind,
        left: term(left)?,
        right: term(right)?,
    })
}

// A listed word and its fate.
fn listed(text: &str) -> Option<Listed> {
    let (before, after) = text.split_once(':')?;
    let (_, word) = word(before.trim())?;
    let fate = u8::try_from(number(after.trim())?).ok()?;
    Some(Listed {
        word,
        fate: Fate::try_from(fate).ok()?,
    })
}

// What stands between commas, each read in the same way, if there is room for it. A blank text has nothing.
fn each<T: Default + Drop, const MOST: usize, Read: Fn(&str) -> Option<T>>(
    text: &str,
    read: Read,
) -> Option<ArrayVec<T, MOST>>
    requires { Read.IsAlwaysCallable read }
{
    let mut all = ArrayVec::new();
    if text.trim().is_empty() {
        return Some(all);
    }
    for part in text.split(',') {
        all.try_push(read(part)?).ok()?;
    }
    Some(all)
}

fn sheet(width: u8, text: &str) -> Option<Sheet> {
    Some(Sheet {
        width,
        words: 3,
        constraints: each(text, constraint)?,
    })
}

// A sheet, and what a call on it must answer.
fn row(text: &str) -> Option<(Sheet, Heard)> {
    let (width, rest) = text.split_once('|')?;
    let (given, rest) = rest.split_once('|')?;
    let (answer, rest) = rest.split_once('|')?;
    let (fates, walks) = rest.split_once('|')?;
    let width = u8::try_from(number(width.trim())?).ok()?;
    let heard = Heard {
        sheet: sheet(width, answer)?.to_bytes()?,
        fates: each(fates, listed)?,
        walks: number(walks.trim())? as usize,
    };
    Some((sheet(width, given)?, heard))
}

// Whether a sheet is answered as it is written of it, if that can be read.
fn is_answered(text: &str) -> Option<bool> {
    let (sheet, heard) = row(text)?;
    let list = heard.words(|_| true)?;
    Some(trial::call(&sheet, &list).is_some_and(|answer| answer.is(&heard)))
}

// How many of some sheets are answered as it is written of them.
pub fn answered(texts: &[&str]) -> io::Result<u64> {
    let mut right = 0;
    for text in texts {
        if is_answered(text).ok_or(ErrorKind::InvalidData)? {
            tally::more(&mut right);
        }
    }
    Ok(right)
}
