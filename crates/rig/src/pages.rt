use wave::waves::Wave;

/// How many entries a page takes.
pub const PAGE_LENGTH: u32 = 4096;

/// What a round was: the wave that rose from the port, the wave that fell into it, and what the port answered.
#[derive(Clone, Copy, Debug, PartialEq, Eq)]
pub struct Round {
    pub rising: Wave,
    pub falling: Wave,
    pub absorbed: u64,
    pub shortened: u32,
    pub heard: i32,
}

/// A page: the count and the sums of the accepted feeds, answers and clears since the last turn, beside the energy stored at its start and at its end.
#[derive(Clone, Copy, Debug, PartialEq, Eq)]
pub struct Page {
    pub entries: u32,
    pub start: u64,
    pub end: u64,
    pub absorbed: u64,
    pub dropped: u64,
    pub shortened: u64,
    /// The sum of f² − r² over the page's rounds, f the falling and r the rising wave.
    pub swing: i64,
}
