ghost use Rattle.std.specs.Prelude.{◌≡◌, ◌+◌, ◌*◌, ◌<◌, ◌≤◌, pos, ◌+ℤ◌, ◌-ℤ◌, unsigned_abs};
ghost use Rattle.wave.specs.Numbers.{sq};
ghost use Rattle.rig.specs.Limits.{page_length, most_absorbed, most_count, most_square};
ghost use Rattle.rig.specs.Pages.{Fresh, Entered, page_of};

use crate::pages::{Page, Round};
use crate::parts::Tally;
use wave::waves::Wave;

impl Tally {
    // A page without entries, begun at the stored energy `start`.
    pub(crate) fn fresh(start: u64) -> Tally
        ensures { Fresh start result }
    {
        Tally {
            entries: 0,
            start,
            absorbed: 0,
            dropped: 0,
            shortened: 0,
            swing: 0,
        }
    }

    // The swing and a round's share of it.
    fn swung(self, round: Round) -> i64
        requires { self.entries < page_length }
        ensures value { result ≡ self.swing +ℤ (pos (sq round.falling.value) -ℤ pos (sq round.rising.value)) }
        ensures bound { unsigned_abs result ≤ (self.entries + 1) * most_square }
    {
        self.swing + (round.falling.square() as i64 - round.rising.square() as i64)
    }

    // One round more.
    pub(crate) fn counted(self, round: Round) -> Tally
        requires { (self.entries < page_length) × ((round.absorbed ≤ most_absorbed) × (round.shortened ≤ most_count)) }
        ensures { Entered self round.rising.value round.falling.value round.absorbed round.shortened 0 result }
    {
        let swing = self.swung(round);
        Tally {
            entries: self.entries + 1,
            start: self.start,
            absorbed: self.absorbed + round.absorbed,
            dropped: self.dropped,
            shortened: self.shortened + round.shortened as u64,
            swing,
        }
    }

    // One clear more.
    pub(crate) fn cleared(self, dropped: u64) -> Tally
        requires { (self.entries < page_length) × (dropped ≤ most_absorbed) }
        ensures { Entered self (pos 0) (pos 0) 0 0 dropped result }
    {
        Tally {
            entries: self.entries + 1,
            start: self.start,
            absorbed: self.absorbed,
            dropped: self.dropped + dropped,
            shortened: self.shortened,
            swing: self.swing,
        }
    }

    // The page, ended at the stored energy `end`.
    pub(crate) fn page(self, end: u64) -> Page
        ensures { result ≡ page_of self end }
    {
        Page {
            entries: self.entries,
            start: self.start,
            end,
            absorbed: self.absorbed,
            dropped: self.dropped,
            shortened: self.shortened,
            swing: self.swing,
        }
    }
}
