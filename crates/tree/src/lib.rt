//! The tree of a listing's elements: a port whose shape comes from the listing, changed in place.
#![tactic(auto)]

pub mod elements;
pub mod grown;
pub mod listed;
pub mod rooms;
pub mod shapes;
mod trees;

pub use elements::{Body, Element};
pub use grown::{Apart, Refusal};
pub use listed::ListingTree;
pub use rooms::Room;
pub use shapes::Step;
