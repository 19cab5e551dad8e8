// Why a listed word was left, read off the answer.
use crate::page::{Constraint, Sheet};
use sheet::Kind;

// The reasons that a constraint gives, in the order in which they count.
#[derive(Clone, Copy, PartialEq, Eq, PartialOrd, Ord)]
pub enum Reason {
    // An inequality has the word on both sides.
    Both,

    // An inequality has it on one side, and a word on the other.
    Moving,

    // An inequality has it, beside a constant.
    Bounded,

    // No inequality has it: the disequalities with it may take away every value.
    Different,
}

impl Reason {
    // The reason that a constraint gives for the word x.
    fn of(c: &Constraint, x: u8) -> Self {
        let left = c.left.has(x);
        let right = c.right.has(x);
        match c.kind {
            Kind::Equal | Kind::Different => Reason::Different,
            _ if left && right => Reason::Both,
            _ if !left && !right => Reason::Different,
            _ if c.left.is_constant() || c.right.is_constant() => Reason::Bounded,
            _ => Reason::Moving,
        }
    }

    // The first reason that a constraint of the sheet gives for the word x.
    pub fn first(sheet: &Sheet, x: u8) -> Self {
        sheet
            .constraints
            .iter()
            .map(|c| Reason::of(c, x))
            .min()
            .unwrap_or(Reason::Different)
    }
}
