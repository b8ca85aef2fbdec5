ghost use Rattle.std.specs.Prelude.{◌*◌, ◌^◌, ◌≤◌, unsigned_abs};
ghost use Rattle.rig.specs.Limits.{most_square};

// Kept: apart from the tally of a rig, whose sums are narrower: one type for both widths would need a trait of numbers with laws, for these two alone.
/// The sums over a list of calls, as many pages as they fill: the accepted feeds and clears, and what they came to.
#[derive(Clone, Copy)]
pub struct Account {
    pub(crate) entries: u32,
    pub(crate) absorbed: u128,
    pub(crate) dropped: u128,
    pub(crate) shortened: u64,
    pub(crate) swing: i128,
    ghost absorbs: { absorbed ≤ entries * 2 ^ 64 },
    ghost drops: { dropped ≤ entries * 2 ^ 64 },
    ghost shortens: { shortened ≤ entries * 2 ^ 32 },
    ghost swings: { unsigned_abs swing ≤ entries * most_square },
}
