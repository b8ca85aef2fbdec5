//! Worked examples, proved of the definitions.
#![tactic(auto)]

ghost use Rattle.std.specs.Prelude.{◌≡◌, pos};
ghost use Rattle.worked.specs.Line.{at_rest, next, feed};
ghost use Rattle.worked.specs.Table.{Table, Told};

/// A feed of the door line: the wave that rose, the wave that fell, what was absorbed, how many waves were shortened, what the ear heard, and
/// what is then stored.
#[derive(Clone, Copy, Debug, PartialEq, Eq)]
pub struct Row {
    pub rising: i32,
    pub falling: i32,
    pub absorbed: u64,
    pub shortened: u32,
    pub heard: i32,
    pub stored: u64,
}

/// The first two feeds.
#[derive(Clone, Copy)]
pub struct Rows {
    pub first: Row,
    pub second: Row,
}

/// The door line at rest is fed 1000 and then 0.
pub fn worked_examples() -> Rows
    ensures table { Table }
    ensures first { Told (feed at_rest (pos 1000)) result.first }
    ensures second { Told (feed (next at_rest (pos 1000)) (pos 0)) result.second }
{
    Rows {
        first: Row {
            rising: 0,
            falling: 1701,
            absorbed: 1693366,
            shortened: 2,
            heard: 101,
            stored: 82525151,
        },
        second: Row {
            rising: -1533,
            falling: 1075,
            absorbed: 13768704,
            shortened: 5,
            heard: 288,
            stored: 33693104,
        },
    }
}
