//! A recording that comes in pieces, cut anywhere: samples go through a session as soon as both their bytes are there, and nothing depends on the cuts.
#![tactic(auto)]

pub mod pieces;
pub mod streams;

pub use streams::{Heard, Stream};
