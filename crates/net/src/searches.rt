ghost use Rattle.std.specs.Prelude.{ℕ, ◌<◌, ◌≤◌, true, false, length, MatchOption};
ghost use Rattle.net.specs.Wires.{at, wires_of};
ghost use Rattle.net.specs.Searches.{FailsAll, FirstPast};

use crate::wired::Wired;
use crate::wires::Wire;

// The first branch from `start` on whose ends pass the test.
pub(crate) fn first_past<B: Wired, F: Fn(Wire) -> bool>(
    branches: &[B],
    start: usize,
    test: F,
) -> Option<usize>
    requires { F.IsAlwaysCallable test }
    ensures { MatchOption result
        (FailsAll (F.post test) (wires_of B.Wired branches.now) start (length branches.now))
        (FirstPast (F.post test) (wires_of B.Wired branches.now) start) }
{
    let past = branches
        .iter()
        .skip(start)
        .map(|b| b.wire())
        .position(|w| test(w))?;
    Some(start + past)
}
