ghost use Rattle.std.specs.Prelude.{◌≡◌, ◌<◌, false};
ghost use Rattle.rig.specs.Limits.{page_length};

use rig::{Page, Rig, Round};

/// A rig that turns its own pages: no wave is ever open, and there is always an entry left.
#[derive(Drop)]
pub struct Session<P, C> {
    pub(crate) rig: Rig<P, C>,
    ghost idle: { rig.raised ≡ false },
    ghost room: { rig.tally.entries < page_length },
}

/// A round, and the page that it filled, if it did.
#[derive(Clone, Copy, Debug, PartialEq, Eq)]
pub struct Entry {
    pub round: Round,
    pub page: Option<Page>,
}
