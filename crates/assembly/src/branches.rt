ghost use Rattle.std.specs.Prelude.{◌≡◌};
ghost use Rattle.assembly.specs.Branches.{ends_at};

use net::{Wire, Wired};
use reader::Ends;
use tree::ListingTree;

// A tree between two nodes, and the place of its first element's name.
#[derive(Drop)]
pub(crate) struct Branch {
    pub(crate) tree: ListingTree,
    pub(crate) wire: Wire,
    pub(crate) place: usize,
}

impl Wired for Branch {
    ghost wired = { λ b. b.wire };

    fn wire(&self) -> Wire {
        self.wire
    }
}

// The two ends of an element or of the port, by the numbers of their nodes.
// Kept: an `Ends` is the reader's and a `Wire` is net's, so this can be no `From`.
pub(crate) fn wire_of(ends: Ends) -> Wire
    ensures { result ≡ ends_at ends }
{
    Wire {
        from: ends.from.index,
        to: ends.to.index,
    }
}
