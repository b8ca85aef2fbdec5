ghost use Rattle.std.specs.Prelude.{◌≡◌};
ghost use Rattle.net.specs.Wires.{same_ends, touches, far};
ghost use Rattle.net.specs.Choices.{chosen_pair};

/// The two ends of a branch, by the numbers of their nodes.
#[derive(Clone, Copy, Debug, PartialEq, Eq)]
pub struct Wire {
    pub from: usize,
    pub to: usize,
}

/// Two branches, by their places in the list.
#[derive(Clone, Copy, Debug, PartialEq, Eq)]
pub struct Pair {
    pub low: usize,
    pub high: usize,
}

/// Which two branches are joined next.
#[derive(Clone, Copy, Debug, PartialEq, Eq)]
pub enum Choice {
    /// Two that have the same two ends.
    Twins(Pair),
    /// Two that alone meet at this node.
    Chain(Pair, usize),
}

impl Wire {
    /// The other has the same two ends, in this order or the opposite.
    pub fn same_ends(self, other: Wire) -> bool
        ensures { result ≡ same_ends self other }
    {
        (self.from == other.from && self.to == other.to)
            || (self.from == other.to && self.to == other.from)
    }

    /// It ends at the node.
    pub fn touches(self, node: usize) -> bool
        ensures { result ≡ touches node self }
    {
        self.from == node || self.to == node
    }

    /// The end that is not at the node.
    pub fn far(self, node: usize) -> usize
        ensures { result ≡ far node self }
    {
        if self.from == node {
            self.to
        } else {
            self.from
        }
    }
}

impl Choice {
    /// The two branches that are joined.
    pub fn pair(self) -> Pair
        ensures { result ≡ chosen_pair self }
    {
        match self {
            Choice::Twins(pair) | Choice::Chain(pair, _) => pair,
        }
    }
}
