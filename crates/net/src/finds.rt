ghost use Rattle.std.specs.Prelude.{◌≡◌, ℕ, ◌<◌, length, MatchOption};
ghost use Rattle.net.specs.Wires.{wires_of};
ghost use Rattle.net.specs.Searches.{Unlike, Partner};
ghost use Rattle.net.specs.Choices.{NoTwins, TakenTwins, Takes, Stuck, OneChoice};

use crate::chains::find_chain;
use crate::searches::first_past;
use crate::wired::Wired;
use crate::wires::{Choice, Pair, Wire};

// The first branch past `low` with the ends of that one.
fn partner<B: Wired>(branches: &[B], low: usize) -> Option<usize>
    requires { low < length branches.now }
    ensures { MatchOption result
        (Unlike (wires_of B.Wired branches.now) low (length branches.now))
        (Partner (wires_of B.Wired branches.now) low) }
{
    let wire = branches[low].wire();
    first_past(branches, low + 1, |w| wire.same_ends(w))
}

// The twins that are taken.
pub(crate) fn find_twins<B: Wired>(branches: &[B]) -> Option<Pair>
    ensures { MatchOption result
        (NoTwins (wires_of B.Wired branches.now))
        (TakenTwins (wires_of B.Wired branches.now)) }
{
    // Kept: what `find_map` over a range answers is told by its calls alone, and the proof of that is longer than this loop.
    for low in 0..branches.len() {
        if let Some(high) = partner(branches, low) {
            return Some(Pair { low, high });
        }
    }
    None
}

/// Which two branches are joined next, in a net with this port: twins, or where there are none a chain. None where no two can be.
pub fn choose<B: Wired>(branches: &[B], port: Wire) -> Option<Choice>
    ensures taken { MatchOption result
        (Stuck (wires_of B.Wired branches.now) port)
        (Takes (wires_of B.Wired branches.now) port) }
    ensures only { OneChoice (wires_of B.Wired branches.now) port }
{
    // Kept: with `or_else` the check does not find the proof, and to write it is longer than this `if`.
    if let Some(pair) = find_twins(branches) {
        return Some(Choice::Twins(pair));
    }
    let (pair, node) = find_chain(branches, port)?;
    Some(Choice::Chain(pair, node))
}
