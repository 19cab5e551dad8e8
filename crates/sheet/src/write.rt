// Writing a working sheet as bytes. (The number of words is a plain count, whose bound stands in the clauses.)
ghost use Rattle.std.specs.Prelude.{◌≡◌, map, ◌+◌, ◌*◌, ◌≤◌, length};
ghost use Rattle.meaning.specs.Bytes.{stride, size_of, number_bytes, term_bytes, constraint_bytes, constraints_bytes, sheet_bytes};
ghost use Rattle.meaning.specs.Outcome.{over};
ghost use Rattle.meaning.specs.Sheet.{equal_zero};
ghost use Rattle.sheet.specs.Bytes.{written, sheet_of};
ghost use Rattle.sheet.specs.Work.{constraint_of, constraints_of, equalities_of, sheet_work};

use crate::judge::place;
use crate::{Constraint, Equalities, Kind, Sheet};
use row::Row;

// x in the four bytes from i on.
#[tactic(auto, using(crate::proofs::Writing::put_written), unfolding(meaning::specs::Bytes::number_bytes))]
fn put_number(out: &mut [u8], i: usize, x: u32)
    requires { i + 4 ≤ length out.old }
    ensures { out.new ≡ written out.old i (number_bytes x) }
{
    out[i..i + 4].copy_from_slice(&x.to_be_bytes());
}

// The term r of n words from i on.
fn put_term(out: &mut [u8], i: usize, n: usize, r: &Row)
    requires { (n ≤ 16) × (i + 4 * (n + 1) ≤ length out.old) }
    ensures bytes { out.new ≡ written out.old i (term_bytes n r.now.w) }
    ensures size { length (term_bytes n r.now.w) ≡ 4 * (n + 1) }
{
    for (k, &x) in r.w[..n].iter().enumerate() {
        put_number(out, i + 4 * k, x);
    }
    put_number(out, i + 4 * n, r.w[row::WORDS]);
}

// The constraint c of n words from i on.
fn put_constraint(out: &mut [u8], i: usize, n: usize, c: &Constraint)
    requires { (n ≤ 16) × (i + stride n ≤ length out.old) }
    ensures bytes { out.new ≡ written out.old i (constraint_bytes n (constraint_of c.now)) }
    ensures size { length (constraint_bytes n (constraint_of c.now)) ≡ stride n }
{
    out[i] = u8::from(c.kind);
    put_term(out, i + 1, n, &c.left);
    put_term(out, i + 1 + 4 * (n + 1), n, &c.right);
}

// The equalities, behind the eight bytes at the front.
fn put_equalities(out: &mut [u8], n: usize, e: &Equalities)
    requires { (n ≤ 16) × (e.now.count ≤ 16) × (size_of n e.now.count ≤ length out.old) }
    ensures bytes { out.new ≡ written out.old 8 (constraints_bytes n (map equal_zero (equalities_of e.now))) }
    ensures size { length (constraints_bytes n (map equal_zero (equalities_of e.now))) ≡ e.now.count * stride n }
{
    for i in 0..e.count {
        let c = Constraint {
            kind: Kind::Equal,
            left: row::row_of(&e.rows, i),
            right: row::zero(),
        };
        put_constraint(out, place(n, i), n, &c);
    }
}

// The others, behind eqs constraints. (They are there; those of the equalities are made of rows.)
fn put_others(out: &mut [u8], n: usize, eqs: usize, others: &[Constraint])
    requires { (n ≤ 16) × (eqs ≤ 16) × (length others.now ≤ 32) × (size_of n (eqs + length others.now) ≤ length out.old) }
    ensures bytes { out.new ≡ written out.old (size_of n eqs) (constraints_bytes n (constraints_of others.now)) }
    ensures size { length (constraints_bytes n (constraints_of others.now)) ≡ length others.now * stride n }
{
    for (i, c) in others.iter().enumerate() {
        put_constraint(out, place(n, eqs + i), n, c);
    }
}

impl Sheet {
    // The sheet at the front of the buffer; the answer is its length.
    pub fn write(&self, out: &mut [u8]) -> usize
        requires width { self.now.width ≤ 32 }
        requires words { self.now.words ≤ 16 }
        requires few { (self.now.equalities.count ≤ 16) × (self.now.others.count ≤ 32) }
        requires room { size_of self.now.words 48 ≤ length out.old }
        ensures size { result ≡ length (sheet_bytes (sheet_of self.now.width self.now.words (sheet_work self.now))) }
        ensures bytes { out.new ≡ over (sheet_bytes (sheet_of self.now.width self.now.words (sheet_work self.now))) out.old }
    {
        let n = self.words;
        let eqs = self.equalities.count;
        let m = eqs + self.others.count;
        let size = place(n, m);
        put_number(out, 0, (size - 4) as u32);
        out[4..8].copy_from_slice(&[1, self.width as u8, n as u8, m as u8]);
        put_equalities(out, n, &self.equalities);
        put_others(out, n, eqs, self.others.as_slice());
        size
    }
}
