//! The weight of an element, from its kind and value.
#![tactic(auto)]

mod scales;
mod weighs;

pub use scales::{LARGEST_RATE, LARGEST_UNIT, Scale};
pub use weighs::{Examples, worked_examples};
