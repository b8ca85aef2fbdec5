//! Branches between nodes, and which two of them are joined next.
#![tactic(auto)]

mod chains;
mod finds;
mod searches;
mod wired;
mod wires;

pub use finds::choose;
pub use wired::Wired;
pub use wires::{Choice, Pair, Wire};
