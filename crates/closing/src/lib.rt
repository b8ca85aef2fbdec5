//! What closes a port: a source, a short, a diode, a stiff source.
#![tactic(auto)]

pub mod kinds;
pub mod meaning;

pub use kinds::{Diode, Short, Source, Stiff};
pub use meaning::{BoundedClosing, Closing};
