ghost use Rattle.std.specs.Prelude.{◌≡◌, ◌<◌, length, IfSome, MatchOption};
ghost use Rattle.stream.specs.Calls.{Filters, UsedUp, Fills};

use crate::streams::Stream;
use closing::Closing;
use port::Port;
use rig::Page;

impl<P: Port, C: Closing> Stream<P, C> {
    /// Feeds a piece, and writes what is heard of it into the front of `out`; answers how many bytes that are. Nothing is done where `out` is not longer
    /// than the piece, since a byte that waited may complete one sample more.
    pub fn filter(&mut self, piece: &[u8], out: &mut [u8]) -> Option<usize>
        ensures { Filters P.Port C.Closing self.old piece.now out.old result self.new out.new }
    {
        if out.len() <= piece.len() {
            return None;
        }
        let mut at = 0;
        for byte in piece {
            if let Some(heard) = self.push(*byte) {
                out[at..at + 2].copy_from_slice(&heard.bytes);
                // Kept: written by hand into the lent buffer, since feeding uses no heap to gather what is heard in.
                at += 2;
            }
        }
        Some(at)
    }

    /// Feeds a piece up to the byte that fills a page, and answers the page and the rest of the piece; or feeds all of it, if no page is filled.
    pub fn measure<'a>(&mut self, piece: &'a [u8]) -> Option<(Page, &'a [u8])>
        ensures what { MatchOption result (UsedUp P.Port C.Closing self.old piece.now self.new) (λ x. Fills P.Port C.Closing self.old piece.now x.0 x.1.now self.new) }
        ensures shorter { IfSome result (λ x. length x.1.now < length piece.now) }
    {
        for (i, byte) in piece.iter().enumerate() {
            if let Some(page) = self.push(*byte).and_then(|heard| heard.page) {
                return Some((page, &piece[i + 1..]));
            }
        }
        None
    }
}
