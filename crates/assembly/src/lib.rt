//! From the text of a listing to its tree.
#![tactic(auto)]

mod assembling;
mod branches;
mod faults;
mod forests;
mod leaves;
mod spaces;

pub use assembling::{Assembled, assemble};
pub use faults::AssemblyFault;
pub use spaces::Workspace;
