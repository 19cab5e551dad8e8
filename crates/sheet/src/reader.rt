// The one reader of a sheet: it holds the bytes and the place. A sheet is read with it front to back: what is asked for stands at its
// place, and it moves on by the bytes of that.
ghost use Rattle.std.specs.Prelude.{◌≡◌, ◌+◌, ◌*◌, ◌≤◌, ◌<◌, length, get_or};
ghost use Rattle.meaning.specs.Bytes.{stride, number_at, term_at, constraint_at};
ghost use Rattle.sheet.specs.Work.{constraint_of};

use crate::{Constraint, Kind};
use row::Row;

#[derive(Clone, Copy)]
pub struct Reader<'a> {
    pub bytes: &'a [u8],
    pub at: usize,
}

impl<'a> Reader<'a> {
    // The reader of these bytes, at this place.
    pub fn new(bytes: &'a [u8], at: usize) -> Self
        ensures { (result.bytes ≡ bytes.entry) × (result.at ≡ at) }
    {
        Reader { bytes, at }
    }

    // A byte: the width, the words, the count of the constraints, or a kind.
    pub fn byte(&mut self) -> u8
        requires { self.old.at < length self.old.bytes.now }
        ensures value { result ≡ get_or self.old.bytes.now self.old.at 0 }
        ensures same { self.new.bytes ≡ self.old.bytes }
        ensures past { self.new.at ≡ self.old.at + 1 }
    {
        let byte = self.bytes[self.at];
        self.at += 1;
        byte
    }

    // A number: four bytes, the highest first.
    #[tactic(auto, unfolding(meaning::specs::Bytes::number_at))]
    pub fn number(&mut self) -> u32
        requires { self.old.at + 4 ≤ length self.old.bytes.now }
        ensures value { result ≡ number_at self.old.bytes.now self.old.at }
        ensures same { self.new.bytes ≡ self.old.bytes }
        ensures past { self.new.at ≡ self.old.at + 4 }
    {
        let b0 = self.byte();
        let b1 = self.byte();
        let b2 = self.byte();
        let b3 = self.byte();
        u32::from_be_bytes([b0, b1, b2, b3])
    }

    // A term of n words: its coefficients, zeros for the words that the sheet does not have, its constant.
    pub fn term(&mut self, n: usize) -> Row
        requires few { n ≤ 16 }
        requires room { self.old.at + 4 * (n + 1) ≤ length self.old.bytes.now }
        ensures value { result.w ≡ term_at self.old.bytes.now n self.old.at }
        ensures same { self.new.bytes ≡ self.old.bytes }
        ensures past { self.new.at ≡ self.old.at + 4 * (n + 1) }
    {
        let mut w = [0; row::NUMBERS];
        for x in &mut w[..n] {
            *x = self.number();
        }
        w[row::WORDS] = self.number();
        Row { w }
    }

    // A constraint of n words: the kind, the left side, the right side.
    #[tactic(auto, unfolding(meaning::specs::Bytes::constraint_at))]
    pub fn constraint(&mut self, n: usize) -> Constraint
        requires few { n ≤ 16 }
        requires room { self.old.at + stride n ≤ length self.old.bytes.now }
        ensures value { constraint_of result ≡ constraint_at self.old.bytes.now n self.old.at }
        ensures same { self.new.bytes ≡ self.old.bytes }
        ensures past { self.new.at ≡ self.old.at + stride n }
    {
        let kind = match Kind::try_from(self.byte()) {
            Ok(kind) => kind,
            Err(unknown) => Kind::Unknown(unknown),
        };
        let left = self.term(n);
        let right = self.term(n);
        Constraint { kind, left, right }
    }
}

// The byte at i.
pub fn byte_at(b: &[u8], i: usize) -> u8
    requires { i < length b.now }
    ensures { result ≡ get_or b.now i 0 }
{
    Reader::new(b, i).byte()
}

// The number in the four bytes from i on.
pub fn number_at(b: &[u8], i: usize) -> u32
    requires { i + 4 ≤ length b.now }
    ensures { result ≡ number_at b.now i }
{
    Reader::new(b, i).number()
}
