// A constraint as code holds it.
use crate::Kind;
use row::Row;

// Its kind and its two sides.
#[derive(Clone, Copy, Default, PartialEq, Eq)]
pub struct Constraint {
    pub kind: Kind,
    pub left: Row,
    pub right: Row,
}
