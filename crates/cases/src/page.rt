// Sheets over up to four words, and the same sheets in bytes.
use arrayvec::{ArrayVec, CapacityError};
use sheet::Kind;

// Some of the four words.
pub type Words = ArrayVec<u8, 4>;

// The constraints of a sheet: seven are drawn at most, and an answer has at most one more for each word.
pub type Constraints = ArrayVec<Constraint, 12>;

// A sheet in bytes: twelve constraints over four words have 500.
pub type Bytes = ArrayVec<u8, 512>;

// The number 2^p - 1, for a width p.
pub fn greatest(width: u8) -> u32 {
    !u32::MAX.unbounded_shl(u32::from(width))
}

// A side of a constraint: the coefficients of the words, and a constant.
#[derive(Clone, Copy, Default, PartialEq, Eq)]
pub struct Term {
    pub words: [u32; 4],
    pub constant: u32,
}

// A constant alone.
impl From<u32> for Term {
    fn from(constant: u32) -> Self {
        Term {
            words: [0; 4],
            constant,
        }
    }
}

impl Term {
    // Whether it has no word.
    pub fn is_constant(&self) -> bool {
        self.words == [0; 4]
    }

    // Whether it has the word x.
    pub fn has(&self, x: u8) -> bool {
        self.words.get(usize::from(x)).is_some_and(|c| *c != 0)
    }

    // Whether its numbers go up to `most`.
    fn fits(&self, most: u32) -> bool {
        self.words.iter().all(|c| *c <= most) && self.constant <= most
    }

    // The term with another coefficient of the word x.
    pub fn with(self, x: u8, coefficient: u32) -> Self {
        let mut term = self;
        if let Some(c) = term.words.get_mut(usize::from(x)) {
            *c = coefficient;
        }
        term
    }

    // The value at the values of the words: its last p bits count.
    pub fn value(&self, values: &[u32; 4]) -> u32 {
        self.words.iter().zip(values).fold(
            self.constant,
            |sum, (c, v)| sum.wrapping_add(c.wrapping_mul(*v)),
        )
    }

    // Adds q times another term, in numbers up to `most`, which is 2^p - 1.
    pub fn add(&mut self, q: u32, other: &Self, most: u32) {
        for (c, d) in self.words.iter_mut().zip(&other.words) {
            *c = c.wrapping_add(q.wrapping_mul(*d)) & most;
        }
        self.constant = self.constant.wrapping_add(q.wrapping_mul(other.constant)) & most;
    }

    // Writes the term in a sheet of n words: it lacks the coefficients of the words from n on.
    fn write(&self, n: u8, out: &mut Bytes) -> Result<(), CapacityError> {
        for c in self.words.iter().take(usize::from(n)) {
            out.try_extend_from_slice(&c.to_be_bytes())?;
        }
        out.try_extend_from_slice(&self.constant.to_be_bytes())
    }
}

// What a kind says of two sides.
#[derive(Clone, Copy, Default, PartialEq, Eq)]
pub struct Constraint {
    pub kind: Kind,
    pub left: Term,
    pub right: Term,
}

impl Constraint {
    // Whether it has the word x.
    pub fn has(&self, x: u8) -> bool {
        self.left.has(x) || self.right.has(x)
    }

    // Takes the sides the other way round, for another kind.
    pub fn turn(&mut self, kind: Kind) {
        *self = Constraint {
            kind,
            left: self.right,
            right: self.left,
        };
    }

    // Adds q times another on both sides, in numbers up to `most`.
    pub fn add(&mut self, q: u32, other: &Self, most: u32) {
        self.left.add(q, &other.left, most);
        self.right.add(q, &other.right, most);
    }
}

// The constraints over the first `words` words, taken modulo 2 to the power of the width.
#[derive(Clone, Drop)]
pub struct Sheet {
    pub width: u8,
    pub words: u8,
    pub constraints: Constraints,
}

impl Sheet {
    // The greatest of its numbers.
    pub fn most(&self) -> u32 {
        greatest(self.width)
    }

    // Whether its numbers are below 2^p.
    pub fn fits(&self) -> bool {
        let most = self.most();
        self.constraints
            .iter()
            .all(|c| c.left.fits(most) && c.right.fits(most))
    }

    // Whether it is the answer 1 = 0.
    pub fn is_false(&self) -> bool {
        let one_is_zero = Constraint {
            kind: Kind::Equal,
            left: Term::from(1),
            right: Term::from(0),
        };
        matches!(self.constraints.as_slice(), [only] if *only == one_is_zero)
    }

    // Whether no constraint has the word x.
    pub fn lacks(&self, x: u8) -> bool {
        self.constraints.iter().all(|c| !c.has(x))
    }

    // The sheet in bytes, if they have room.
    pub fn to_bytes(&self) -> Option<Bytes> {
        let count = u8::try_from(self.constraints.len()).ok()?;
        let mut bytes = Bytes::new();
        bytes
            .try_extend_from_slice(&[0, 0, 0, 0, 1, self.width, self.words, count])
            .ok()?;
        for c in &self.constraints {
            bytes.try_push(u8::from(c.kind)).ok()?;
            c.left.write(self.words, &mut bytes).ok()?;
            c.right.write(self.words, &mut bytes).ok()?;
        }
        let (size, body) = bytes.split_first_chunk_mut::<4>()?;
        *size = u32::try_from(body.len()).ok()?.to_be_bytes();
        Some(bytes)
    }

    // The sheet that some bytes begin with, if they begin with one, and with no more constraints than there is room for. Their size
    // and their version are not looked at.
    pub fn from_bytes(bytes: &[u8]) -> Option<Sheet> {
        let (head, rest) = bytes.split_first_chunk::<8>()?;
        let [_, _, _, _, _, width, words, count] = *head;
        let mut reader = Reader { rest };
        let mut constraints = Constraints::new();
        for _ in 0..count {
            constraints.try_push(reader.constraint(words)?).ok()?;
        }
        Some(Sheet {
            width,
            words,
            constraints,
        })
    }
}

// Bytes that are being read.
#[derive(Drop)]
struct Reader<'a> {
    rest: &'a [u8],
}

impl Reader<'_> {
    fn number(&mut self) -> Option<u32> {
        let (bytes, rest) = self.rest.split_first_chunk::<4>()?;
        self.rest = rest;
        Some(u32::from_be_bytes(*bytes))
    }

    // A term of a sheet of n words.
    fn term(&mut self, n: u8) -> Option<Term> {
        let mut term = Term::from(0);
        for c in term.words.iter_mut().take(usize::from(n)) {
            *c = self.number()?;
        }
        term.constant = self.number()?;
        Some(term)
    }

    fn constraint(&mut self, n: u8) -> Option<Constraint> {
        let (byte, rest) = self.rest.split_first()?;
        self.rest = rest;
        let kind = Kind::try_from(*byte).ok()?;
        let left = self.term(n)?;
        let right = self.term(n)?;
        Some(Constraint { kind, left, right })
    }
}
