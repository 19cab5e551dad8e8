// Reading a sheet that was not refused into a working sheet.
ghost use Rattle.std.specs.Prelude.{◌≡◌, ◌≤◌, length};
ghost use Rattle.meaning.specs.Accepted.{Readable};
ghost use Rattle.meaning.specs.Bytes.{width_in, words_in, sheet_in};
ghost use Rattle.meaning.specs.Tidy.{against_zero, working};
ghost use Rattle.sheet.specs.Work.{constraint_of, sheet_work};

use crate::reader::Reader;
use crate::{Constraint, Kind, Sheet};

// A constraint as a working sheet holds it: a disequality is written as a difference and zero.
fn against_zero(c: Constraint, p: u32) -> Constraint
    requires { p ≤ 32 }
    ensures { constraint_of result ≡ against_zero p (constraint_of c) }
{
    if c.kind == Kind::Different {
        return Constraint {
            kind: c.kind,
            left: row::less(c.left, 1, c.right, p),
            right: row::zero(),
        };
    }
    c
}

impl Sheet {
    // The working sheet of the sheet in b, read front to back.
    pub fn read(b: &[u8]) -> Self
        requires { Readable b.now }
        ensures width { result.width ≡ width_in b.now }
        ensures words { result.words ≡ words_in b.now }
        ensures few_eqs { result.equalities.count ≤ 32 }
        ensures few_others { result.others.count ≤ 32 }
        ensures work { sheet_work result ≡ working (sheet_in b.now) }
    {
        let mut reader = Reader::new(b, 5);
        let p = reader.byte() as u32;
        let n = reader.byte() as usize;
        let m = reader.byte() as usize;
        let mut sheet = Sheet::new(p, n, true);
        for _ in 0..m {
            let c = reader.constraint(n);
            if c.kind == Kind::Equal {
                sheet.equalities.push(row::less(c.left, 1, c.right, p));
            } else {
                sheet.others.push(against_zero(c, p));
            }
        }
        sheet
    }
}
