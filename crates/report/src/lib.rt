//! What becomes of a recording: a report balances what was fed against what was stored, absorbed, dropped and shortened.
#![tactic(auto)]

pub mod accounts;
pub mod reports;

pub use accounts::Weighing;
pub use reports::{LONGEST_RECORDING, LONGEST_SILENCE, QUIET, Report, Silence, TooLong, report_on};
