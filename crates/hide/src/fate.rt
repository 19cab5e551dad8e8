// What becomes of a listed word, and the bytes that stand for it.
ghost use Rattle.std.specs.Prelude.{◌≡◌};
ghost use Rattle.hide.specs.Fate.{fate_number, FateRead};

// The fates, in the order of their numbers.
#[derive(Clone, Copy, Debug, PartialEq, Eq)]
pub enum Fate {
    Left,
    Absent,
    Layer1,
    Layer2,
}

// A byte that stands for no fate.
#[derive(Clone, Copy, Debug, PartialEq, Eq)]
pub struct UnknownFate(pub u8);

impl TryFrom<u8> for Fate {
    type Error = UnknownFate;

    ghost try_from_gives = { FateRead };

    fn try_from(byte: u8) -> Result<Self, UnknownFate> {
        match byte {
            0 => Ok(Fate::Left),
            1 => Ok(Fate::Absent),
            2 => Ok(Fate::Layer1),
            3 => Ok(Fate::Layer2),
            _ => Err(UnknownFate(byte)),
        }
    }
}

impl From<Fate> for u8 {
    ghost from_gives = { λ fate byte. byte ≡ fate_number fate };

    fn from(fate: Fate) -> u8 {
        fate as u8
    }
}
