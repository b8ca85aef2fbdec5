ghost use Rattle.std.specs.Prelude.{◌≡◌, ◌*◌, ◌<◌, ◌≤◌, true, unsigned_abs};
ghost use Rattle.rig.specs.Limits.{page_length, most_absorbed, most_count, most_square};

use wave::waves::Wave;

/// A wave that a rig handed out and that waits for an answer: the rig's number, and the wave that rises from its port. It can be neither
/// copied nor dropped: it is answered or withdrawn, once.
pub struct OpenWave {
    pub(crate) number: u32,
    pub(crate) rising: Wave,
}

// Kept: apart from the account of a report, whose sums are wider: one type for both widths would need a trait of numbers with laws, for these two alone.
/// The page as it grows: what is known of it before it ends.
#[derive(Clone, Copy)]
pub struct Tally {
    pub(crate) entries: u32,
    pub(crate) start: u64,
    pub(crate) absorbed: u64,
    pub(crate) dropped: u64,
    pub(crate) shortened: u64,
    pub(crate) swing: i64,
    ghost few: { entries ≤ page_length },
    ghost absorbs: { absorbed ≤ entries * most_absorbed },
    ghost drops: { dropped ≤ entries * most_absorbed },
    ghost shortens: { shortened ≤ entries * most_count },
    ghost swings: { unsigned_abs swing ≤ entries * most_square },
}

/// A port, the closing before it, and a number by which its open waves are known. `raised` says that a wave is open; one is handed out only
/// while the page has an entry for its answer.
#[derive(Drop)]
pub struct Rig<P, C> {
    pub(crate) port: P,
    pub(crate) closing: C,
    pub(crate) number: u32,
    // Kept: a flag, for the wave that is open is out with the caller: no value is left here for an `Option` to hold.
    pub(crate) raised: bool,
    pub(crate) tally: Tally,
    ghost room: { raised ≡ true → tally.entries < page_length },
}
