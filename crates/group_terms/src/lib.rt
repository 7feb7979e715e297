//! Groups of definitions copied and compared, and the ranges of the words in them.
#![tactic(auto)]

mod copy;
mod laws;
mod range;
mod same;

pub use copy::copy_group;
pub use laws::law_of_ranges;
pub use range::has_range;
pub use same::{same_def, same_group};
