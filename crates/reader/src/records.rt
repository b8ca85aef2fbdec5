// The records of a listing by their names, and the nodes as they are entered.
ghost use Rattle.std.specs.Prelude.{◌≡◌, ◌-◌, ◌<◌, ◌≤◌, MatchResult};
ghost use Rattle.reader.specs.Records.{NumberIs};
ghost use Rattle.reader.specs.Inner.{Entered, Overfull};

use crate::{Element, MOST_NODES, Node, NodeNumber};
use cut::Span;
use fixed::Fixed;
use names::{Named, find};
use refusals::{Fault, Rule};

impl Named for Element {
    ghost named = { λ e. e.name };

    fn name(&self) -> Span {
        self.name
    }
}

impl Named for Node {
    ghost named = { λ n. n.name };

    fn name(&self) -> Span {
        self.name
    }
}

// The number of the node with this name, which is entered if it is new and there is room for it.
pub(crate) fn enter(
    text: &[u8],
    nodes: &mut Fixed<Node, MOST_NODES>,
    name: Span,
) -> Result<NodeNumber, Fault>
    ensures { MatchResult result
        (λ i. Entered text.now nodes.old name nodes.new × NumberIs text.now nodes.new name i.index × (Overfull text.now nodes.old name → ⊥))
        (λ f. Overfull text.now nodes.old name × (f ≡ record { place = name.place; rule = Rule.Full })) }
{
    if let Some(index) = find(nodes.as_slice(), text, name.of(text)) {
        return Ok(NodeNumber { index });
    }
    let index = nodes.as_slice().len();
    nodes
        .push(Node { name })
        .map_err(|_| Rule::Full.at(name.place))?;
    Ok(NodeNumber { index })
}
