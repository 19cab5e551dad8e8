// Why a call is refused.

// The rows of the table of refusals, in its order: their numbers are from 1 on.
#[derive(Clone, Copy, Debug, PartialEq, Eq)]
pub enum Refusal {
    Count = 1,
    Version,
    Width,
    Words,
    Size,
    Kind,
    Number,
    TooMany,
    List,
    SheetBuffer,
    FateBuffer,
}
