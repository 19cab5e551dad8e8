// Hiding words: walking over the list, and the call from bytes to bytes.
//
// `hide` is the whole library: nothing is asked of its caller, and its result and both buffers are what the definitions say,
// for every input.
#![tactic(auto)]

mod call;
mod export;
mod fate;
mod rows;
mod walk;

pub use call::hide;
pub use export::{Numbers, number_of, vietoluyn_hide};
pub use fate::{Fate, UnknownFate};
pub use rows::vietoluyn_tidy;

// What an accepted call answers: the length of the answer and the number of walks.
#[derive(Clone, Copy, Debug, PartialEq, Eq)]
pub struct Answer {
    pub length: usize,
    pub walks: usize,
}
