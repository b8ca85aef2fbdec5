ghost use Rattle.std.specs.Prelude.{◌<◌, ◌≤◌};
ghost use Rattle.port.specs.Meaning.{largest_size};

use wave::Ratio;

/// The largest size of a port.
pub const LARGEST_SIZE: u32 = 32;

/// What never changes of a port.
// Kept: ears are a count, since those of two ports are added up.
#[derive(Clone, Copy, Debug, PartialEq, Eq)]
pub struct Part {
    pub ratio: Ratio,
    pub size: u32,
    pub ears: u32,
    ghost within: { (0 < size) × (size ≤ largest_size) × (ears ≤ 1) },
}
