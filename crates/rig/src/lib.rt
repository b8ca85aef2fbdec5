//! A rig: a port and the closing before it, fed sample by sample, with a page of sums and one wave that may be open.
#![tactic(auto)]

pub mod blocks;
pub mod calls;
pub mod handed;
pub mod pages;
pub mod parts;
pub mod refusals;
mod tallies;

pub use handed::HandedBack;
pub use pages::{PAGE_LENGTH, Page, Round};
pub use parts::{OpenWave, Rig};
pub use refusals::Refusal;
