// The others of a working sheet. (They are copied with it, as the vectors of `arrayvec` are not.)
ghost use Rattle.std.specs.Prelude.{◌≡◌, ◌≤◌, ◌<◌, ◌+◌, [], ◌∷◌, ◌++◌, Bool, length, take, filter};
ghost use Rattle.sheet.specs.Others.{no_others, others_of, Says};
ghost use Rattle.sheet.specs.declared.constraint.Constraint.{Constraint as Held};

use crate::{Constraint, Kind, move_other};

// The constraints in the first `count` of their places; what stands behind them is scratch. (That the count fits is asked in the
// clauses, as for `Equalities`.)
#[derive(Clone, Copy)]
pub struct Others {
    pub places: [Constraint; 32],
    pub count: usize,
}

// The members that pass a test, to the front of the slice and in their order: how many they are.
fn keep_in_front<Test: Fn(&Constraint) -> bool>(members: &mut [Constraint], stays: Test) -> usize
    requires { Test.IsAlwaysCallable stays }
    ensures kept { (t : Held → Bool) → Says Test.Fn stays t → take result members.new ≡ filter t members.old }
    ensures fewer { result ≤ length members.old }
{
    let mut n = 0;
    for i in 0..members.len() {
        if stays(&members[i]) {
            move_other(members, i, n);
            n += 1;
        }
    }
    n
}

impl Others {
    // None yet.
    pub fn new() -> Self
        ensures { result ≡ no_others }
    {
        let blank = Constraint {
            kind: Kind::Equal,
            left: row::zero(),
            right: row::zero(),
        };
        Others {
            places: [blank; 32],
            count: 0,
        }
    }

    // The constraints that are there.
    pub fn as_slice(&self) -> &[Constraint]
        requires { self.now.count ≤ 32 }
        ensures { result.now ≡ others_of self.now }
    {
        &self.places[..self.count]
    }

    // c behind those that are there.
    pub fn push(&mut self, c: Constraint)
        requires { self.old.count < 32 }
        ensures others { others_of self.new ≡ others_of self.old ++ c ∷ [] }
        ensures count { self.new.count ≡ self.old.count + 1 }
    {
        self.places[self.count] = c;
        self.count += 1;
    }

    // Other constraints in the place of those that are there.
    pub fn replace(&mut self, next: &[Constraint])
        requires { length next.now ≤ 32 }
        ensures others { others_of self.new ≡ next.now }
        ensures count { self.new.count ≡ length next.now }
    {
        let count = next.len();
        self.places[..count].copy_from_slice(next);
        self.count = count;
    }

    // None any more.
    pub fn clear(&mut self)
        ensures { self.new ≡ record { places = self.old.places; count = 0 } }
    {
        self.count = 0;
    }

    // Those that pass a test stay, in their order.
    pub fn retain<Test: Fn(&Constraint) -> bool>(&mut self, stays: Test)
        requires callable { Test.IsAlwaysCallable stays }
        requires few { self.old.count ≤ 32 }
        ensures kept { (t : Held → Bool) → Says Test.Fn stays t → others_of self.new ≡ filter t (others_of self.old) }
        ensures fewer { self.new.count ≤ self.old.count }
    {
        let count = self.count;
        self.count = keep_in_front(&mut self.places[..count], stays);
    }
}
