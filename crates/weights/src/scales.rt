ghost use Rattle.std.specs.Prelude.{◌<◌, ◌≤◌};
ghost use Rattle.weights.specs.Limits.{largest_rate, largest_unit};

/// The largest rate, in hertz.
pub const LARGEST_RATE: u32 = 192_000;

/// The largest unit, in nanosiemens.
pub const LARGEST_UNIT: u32 = 100_000;

/// What values are counted against: the rate of the samples in hertz, and the conductance in nanosiemens that has the weight 1.
#[derive(Clone, Copy)]
pub struct Scale {
    pub(crate) rate: u32,
    pub(crate) unit: u32,
    ghost fast: { (0 < rate) × (rate ≤ largest_rate) },
    ghost fine: { (0 < unit) × (unit ≤ largest_unit) },
}
