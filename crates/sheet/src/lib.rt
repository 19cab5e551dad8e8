// The sheet's own type, with its limits; reading a sheet from bytes with the refusals, and writing one.
#![tactic(auto)]

mod constraint;
mod judge;
mod kind;
mod others;
mod read;
mod reader;
mod refusal;
mod write;

ghost use Rattle.std.specs.Prelude.{◌≡◌, ◌+◌, ◌<◌, ◌∷◌, [], ◌++◌, length, slice_index_or, slice_set};
ghost use Rattle.meaning.specs.Row.{one_row};
ghost use Rattle.sheet.specs.Others.{blank};
ghost use Rattle.sheet.specs.Work.{new_sheet, equalities_of};

pub use constraint::Constraint;
pub use judge::{judge_call, judge_sheet, place};
pub use kind::{Kind, UnknownKind};
pub use others::Others;
pub use reader::{byte_at, number_at};
pub use refusal::Refusal;
use row::Row;

// The equalities of a working sheet: the first `count` rows of the block, each to be zero. (One flat block of 32 rows, as the rules have
// it. That the count fits is asked in the clauses: the definition of a new sheet names these fields alone.)
#[derive(Clone, Copy)]
pub struct Equalities {
    pub rows: [u32; 544],
    pub count: usize,
}

impl Equalities {
    // r behind the rows that are there.
    pub fn push(&mut self, r: Row)
        requires { self.old.count < 32 }
        ensures rows { equalities_of self.new ≡ equalities_of self.old ++ r.w ∷ [] }
        ensures count { self.new.count ≡ self.old.count + 1 }
    {
        row::put_row(&mut self.rows, self.count, r);
        self.count += 1;
    }
}

// A working sheet of width `width` over `words` words.
#[derive(Clone, Copy)]
pub struct Sheet {
    pub width: u32,
    pub words: usize,
    pub equalities: Equalities,
    pub others: Others,
}

impl Sheet {
    // Equalities, and others.
    pub const EACH: usize = 32;

    pub const MOST_WIDTH: u32 = 32;

    pub const WORDS: usize = row::WORDS;

    // Constraints of a sheet that is read, and of an answer.
    pub const READ: usize = 64;

    pub const WRITTEN: usize = 48;

    // The sheet with no constraint, or, where it does not hold, the false sheet.
    pub fn new(width: u32, words: usize, holds: bool) -> Self
        ensures { result ≡ new_sheet width words holds }
    {
        let mut equalities = Equalities {
            rows: [0; 544],
            count: 0,
        };
        if !holds {
            row::put_row(&mut equalities.rows, 0, one());
            equalities.count = 1;
        }
        Sheet {
            width,
            words,
            equalities,
            others: Others::new(),
        }
    }
}

// The row 1, which is never zero.
pub fn one() -> Row
    ensures { result.w ≡ one_row }
{
    let mut w = [0; row::NUMBERS];
    w[row::WORDS] = 1;
    Row { w }
}

// Other `from` in the place of other `to`.
pub fn move_other(others: &mut [Constraint], from: usize, to: usize)
    requires within { (from < length others.old) × (to < length others.old) }
    ensures { others.new ≡ slice_set others.old to (slice_index_or others.old from blank) }
{
    others[to] = others[from];
}
