ghost use Rattle.std.specs.Prelude.{◌≡◌, ◌*◌, ◌<◌, ◌≤◌, MatchResult};
ghost use Rattle.wave.specs.Numbers.{sq, largest_weight};
ghost use Rattle.wave.specs.Refusals.{NoWeight, weight_row};

use crate::LAYER;
use crate::waves::Wave;
use told::{Tells, Told};

/// The largest weight of an element or a source.
pub const LARGEST_WEIGHT: u32 = 511;

/// A whole number from 1 to `LARGEST_WEIGHT`.
#[derive(Clone, Copy, Debug, PartialEq, Eq)]
pub struct Weight {
    value: u32,
    ghost within: { (0 < value) × (value ≤ largest_weight) },
}

/// Why a number is no weight.
#[derive(Clone, Copy, Debug, PartialEq, Eq)]
pub enum WeightRefusal {
    /// It is 0 or over `LARGEST_WEIGHT`.
    Outside,
}

impl Tells for WeightRefusal {
    ghost says = { weight_row };

    fn told(&self) -> Told {
        Told {
            layer: LAYER,
            number: 12,
            place: 0,
        }
    }
}

impl Weight {
    // Kept: a checked constructor, as those of the types above are; `TryFrom` would only rename it.
    pub fn new(value: u32) -> Result<Weight, WeightRefusal>
        ensures { MatchResult result (λ w. w.value ≡ value) (λ w. NoWeight value w) }
    {
        if value == 0 || value > LARGEST_WEIGHT {
            Err(WeightRefusal::Outside)
        } else {
            Ok(Weight { value })
        }
    }

    pub fn get(self) -> u32
        ensures { result ≡ self.value }
    {
        self.value
    }

    /// The weight times the wave's square.
    pub fn energy(self, wave: Wave) -> u64
        ensures { result ≡ self.value * sq wave.value }
    {
        let weight = self.value as u64;
        weight * wave.square()
    }
}
