// Reads a listing: a title, element lines, a port line and .end.
#![tactic(auto)]

mod faults;
mod line;
mod line_ends;
mod reading;
mod records;
mod words;

use cut::Span;
use fixed::Fixed;
pub use reading::read;
use values::{Kind, Value};

// The largest number of bytes of a text, of a line before its line feed, and of a name.
const LARGEST_TEXT: usize = 16_384;

const LARGEST_LINE: usize = 120;

const LARGEST_NAME: usize = 8;

// The most elements and nodes of a listing.
pub const MOST_ELEMENTS: usize = 32;

pub const MOST_NODES: usize = 33;

// What a line is: passed over, an element, the port, .end or none of them.
#[derive(Clone, Copy, Debug, PartialEq, Eq)]
pub enum LineKind {
    Passed,
    Part(Kind),
    Port,
    Close,
    Strange,
}

// A node, by its name where the text has it first.
#[derive(Clone, Copy, Debug, PartialEq, Eq)]
pub struct Node {
    pub name: Span,
}

// Kept: nodes are named by index, since reading uses no heap and many ends meet at one node.
// Which node of a listing: its index in the list of nodes, from 0 in the order of first appearance.
#[derive(Clone, Copy, Debug, PartialEq, Eq)]
pub struct NodeNumber {
    pub index: usize,
}

// The two ends of an element or of the port.
#[derive(Clone, Copy, Debug, PartialEq, Eq)]
pub struct Ends {
    pub from: NodeNumber,
    pub to: NodeNumber,
}

// What an element line says. The value is in the unit that the kind counts: ohms, picofarads or microhenries.
#[derive(Clone, Copy, Debug, PartialEq, Eq)]
pub struct Element {
    pub name: Span,
    pub kind: Kind,
    pub ends: Ends,
    pub value: Value,
}

// What a port line says.
#[derive(Clone, Copy, Debug, PartialEq, Eq)]
pub struct PortRecord {
    pub name: Span,
    pub ends: Ends,
}

// What a text without a fault holds: the nodes in the order of their first appearance, the elements in the order of the text.
#[derive(Drop)]
pub struct Listing {
    pub nodes: Fixed<Node, MOST_NODES>,
    pub elements: Fixed<Element, MOST_ELEMENTS>,
    pub port: PortRecord,
}
