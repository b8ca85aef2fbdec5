//! Lines of text for programs: a page's numbers, or a refusal, in decimal with one blank between and a line feed behind.
#![tactic(auto)]

mod pages;
mod text;

pub use pages::{page_line, refusal_line};
pub use text::{LINE_ROOM, Line};
