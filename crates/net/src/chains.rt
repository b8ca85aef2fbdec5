ghost use Rattle.std.specs.Prelude.{◌≡◌, ℕ, ◌<◌, ◌≤◌, true, length, MatchOption};
ghost use Rattle.net.specs.declared.wires.Pair.{Pair as PairIs};
ghost use Rattle.net.specs.Wires.{at, wires_of, touches as ends_at};
ghost use Rattle.net.specs.Searches.{Untouched, NextAt};
ghost use Rattle.net.specs.Choices.{Meet, AreChain, NoChain, FirstChain};

use crate::searches::first_past;
use crate::wired::Wired;
use crate::wires::{Pair, Wire};

// Kept: the branches beside the port or a node, here and below: a struct of the two, made for one call, is no plainer.

// The first branch from `start` on that ends at the node.
fn next_at<B: Wired>(branches: &[B], node: usize, start: usize) -> Option<usize>
    ensures { MatchOption result
        (Untouched (wires_of B.Wired branches.now) node start (length branches.now))
        (NextAt (wires_of B.Wired branches.now) node start) }
{
    first_past(branches, start, |w| w.touches(node))
}

// The two branches that alone end at the node.
fn pair_at<B: Wired>(branches: &[B], node: usize) -> Option<Pair>
    ensures { MatchOption result
        ((p : PairIs) → Meet (wires_of B.Wired branches.now) node p → ⊥)
        (Meet (wires_of B.Wired branches.now) node) }
{
    let low = next_at(branches, node, 0)?;
    let high = next_at(branches, node, low + 1)?;
    next_at(branches, node, high + 1)
        .is_none()
        .then_some(Pair { low, high })
}

// The two branches that make a chain at the node.
fn chain_at<B: Wired>(branches: &[B], port: Wire, node: usize) -> Option<Pair>
    ensures { MatchOption result
        ((p : PairIs) → AreChain (wires_of B.Wired branches.now) port node p → ⊥)
        (AreChain (wires_of B.Wired branches.now) port node) }
{
    if port.touches(node) {
        return None;
    }
    let pair = pair_at(branches, node)?;
    let left = branches[pair.low].wire().far(node);
    let right = branches[pair.high].wire().far(node);
    (left != right).then_some(pair)
}

// No branch ends at a node of a larger number.
fn largest_node<B: Wired>(branches: &[B]) -> usize
    ensures { (k n : ℕ) → k < length branches.now → ends_at n (at (wires_of B.Wired branches.now) k) ≡ true → n ≤ result }
{
    branches
        .iter()
        .map(|b| {
            let wire = b.wire();
            wire.from.max(wire.to)
        })
        .max()
        .unwrap_or(0)
}

// The chain that is taken where there are no twins, and its node.
pub(crate) fn find_chain<B: Wired>(branches: &[B], port: Wire) -> Option<(Pair, usize)>
    ensures { MatchOption result
        (NoChain (wires_of B.Wired branches.now) port)
        (λ c. FirstChain (wires_of B.Wired branches.now) port c.1 c.0) }
{
    // Kept: of all chains the one at the node of the smallest number is taken, so the numbers are gone through, and what `find_map` over a range
    // answers is told by its calls alone.
    for node in 0..=largest_node(branches) {
        if let Some(pair) = chain_at(branches, port, node) {
            return Some((pair, node));
        }
    }
    None
}
