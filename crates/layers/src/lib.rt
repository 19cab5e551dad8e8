// The two layers by which a word is hidden: what an equality says of it, put in everywhere, and the count of values that the
// inequalities leave and the disequalities can take away.
#![tactic(auto)]

mod layer1;
mod layer2;
mod records;

pub use layer1::{Choice, Known, choose, drop_with, sides_have};
pub use layer2::has_spare;
