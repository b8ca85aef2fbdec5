//! What a port is, and the elements that are ports: capacitor, coil and resistor.
#![tactic(auto)]

pub mod elements;
pub mod meaning;
pub mod parts;
pub mod takings;

pub use elements::{Resistor, Storage, StorageKind};
pub use meaning::Port;
pub use parts::{LARGEST_SIZE, Part};
pub use takings::Taken;
