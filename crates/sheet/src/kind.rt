// The kinds of a constraint, and the bytes that stand for them.
ghost use Rattle.std.specs.Prelude.{◌<◌};

// What a constraint says of its two sides, in the order of their numbers. A working sheet may also hold a number that stands for no
// kind, which is compared as 'below'; no sheet that is read has one.
#[derive(Clone, Copy, Debug, Default, PartialEq, Eq)]
pub enum Kind {
    #[default]
    Equal,
    Different,
    AtMost,
    Below,
    Unknown(UnknownKind),
}

// A byte that stands for no kind.
#[derive(Clone, Copy, Debug, PartialEq, Eq)]
pub struct UnknownKind {
    pub byte: u8,
    ghost above: { 3 < byte },
}

impl TryFrom<u8> for Kind {
    ghost use Rattle.sheet.specs.Kind.{KindRead};

    type Error = UnknownKind;

    ghost try_from_gives = { KindRead };

    fn try_from(byte: u8) -> Result<Self, UnknownKind> {
        match byte {
            0 => Ok(Kind::Equal),
            1 => Ok(Kind::Different),
            2 => Ok(Kind::AtMost),
            3 => Ok(Kind::Below),
            _ => Err(UnknownKind { byte }),
        }
    }
}

impl From<Kind> for u8 {
    ghost use Rattle.std.specs.Prelude.{◌≡◌};
    ghost use Rattle.sheet.specs.Kind.{kind_number};

    ghost from_gives = { λ kind byte. byte ≡ kind_number kind };

    fn from(kind: Kind) -> u8 {
        match kind {
            Kind::Equal => 0,
            Kind::Different => 1,
            Kind::AtMost => 2,
            Kind::Below => 3,
            Kind::Unknown(unknown) => unknown.byte,
        }
    }
}
