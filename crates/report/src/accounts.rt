mod account;

ghost use Rattle.std.specs.Prelude.{◌≡◌, ◌+◌, ◌-◌, ◌*◌, ◌^◌, ◌<◌, ◌≤◌, pos, ◌+ℤ◌, ◌-ℤ◌, ◌*ℤ◌, unsigned_abs};
ghost use Rattle.wave.specs.Numbers.{sq};
ghost use Rattle.wave.specs.Terms.{largest_number};
ghost use Rattle.rig.specs.Limits.{most_square};
ghost use Rattle.report.specs.Accounts.{Empty, CountsRound, CountsClear, Weighed};

pub use account::Account;
use rig::Round;
use wave::Ratio;

/// A list of calls in the balance: its sums, what is stored at its end, and the two sides of the energy statement. For a port of ratio n/d, `left` is
/// d × (stored + absorbed + dropped), and `right` is d × the energy stored at the start + n × swing.
#[derive(Clone, Copy, Debug, PartialEq, Eq)]
pub struct Weighing {
    pub entries: u32,
    pub stored: u64,
    pub absorbed: u128,
    pub dropped: u128,
    pub shortened: u64,
    pub swing: i128,
    pub left: u128,
    pub right: i128,
}

// Kept: two products, since the two sides have numbers of different widths and signs: one type for both would need a trait of numbers with laws.
// d x
fn scaled(d: u32, x: u128) -> u128
    requires { (d ≤ largest_number) × (x < 2 ^ 97) }
    ensures { result ≡ d * x }
{
    d as u128 * x
}

// n w
fn swung_by(n: u32, w: i128) -> i128
    requires { (n ≤ largest_number) × (unsigned_abs w ≤ 2 ^ 68) }
    ensures value { result ≡ pos n *ℤ w }
    ensures bound { unsigned_abs result ≤ largest_number * 2 ^ 68 }
{
    n as i128 * w
}

impl Account {
    pub(crate) fn empty() -> Account
        ensures { Empty result }
    {
        Account {
            entries: 0,
            absorbed: 0,
            dropped: 0,
            shortened: 0,
            swing: 0,
        }
    }

    // The swing and a round's share of it.
    fn swung(self, round: Round) -> i128
        ensures value { result ≡ self.swing +ℤ (pos (sq round.falling.value) -ℤ pos (sq round.rising.value)) }
        ensures bound { unsigned_abs result ≤ (self.entries + 1) * most_square }
    {
        self.swing + (round.falling.square() as i128 - round.rising.square() as i128)
    }

    // One round more.
    pub(crate) fn counted(self, round: Round) -> Account
        requires { self.entries + 1 < 2 ^ 32 }
        ensures { CountsRound self round result }
    {
        let swing = self.swung(round);
        Account {
            entries: self.entries + 1,
            absorbed: self.absorbed + round.absorbed as u128,
            dropped: self.dropped,
            shortened: self.shortened + round.shortened as u64,
            swing,
        }
    }

    // One clear more.
    pub(crate) fn cleared(self, dropped: u64) -> Account
        requires { self.entries + 1 < 2 ^ 32 }
        ensures { CountsClear self dropped result }
    {
        Account {
            entries: self.entries + 1,
            absorbed: self.absorbed,
            dropped: self.dropped + dropped as u128,
            shortened: self.shortened,
            swing: self.swing,
        }
    }

    // Both sides of the energy statement.
    pub(crate) fn weighed(self, ratio: Ratio, start: u64, stored: u64) -> Weighing
        ensures { Weighed self ratio.num ratio.den start stored result }
    {
        let held = stored as u128 + self.absorbed + self.dropped;
        Weighing {
            entries: self.entries,
            stored,
            absorbed: self.absorbed,
            dropped: self.dropped,
            shortened: self.shortened,
            swing: self.swing,
            left: scaled(ratio.den(), held),
            right: scaled(ratio.den(), start as u128) as i128 + swung_by(ratio.num(), self.swing),
        }
    }
}
