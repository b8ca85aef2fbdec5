//! A session with a rig: its pages turn as they fill, so that it never lacks an entry.
#![tactic(auto)]

pub mod sessions;

pub use sessions::{Entry, Session};
