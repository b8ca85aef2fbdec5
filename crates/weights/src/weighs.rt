ghost use Rattle.std.specs.Prelude.{◌≡◌, ◌*◌, ◌<◌, ◌≤◌, MatchOption};
ghost use Rattle.values.specs.Limits.{largest_value};
ghost use Rattle.weights.specs.Limits.{Scaled, largest_rate};
ghost use Rattle.weights.specs.Weights.{dividend as dividend_of, divisor as divisor_of, weight, Table};

use crate::scales::{LARGEST_RATE, LARGEST_UNIT, Scale};
use values::{Kind, Value};

impl Scale {
    /// None where the rate or the unit is 0 or too large.
    pub fn new(rate: u32, unit: u32) -> Option<Scale>
        ensures { MatchOption result (Scaled rate unit → ⊥) (λ s. (s.rate ≡ rate) × (s.unit ≡ unit)) }
    {
        // Kept: a checked constructor; the struct can be written only where its two bounds are known, which is after this test.
        if rate == 0 || rate > LARGEST_RATE || unit == 0 || unit > LARGEST_UNIT {
            return None;
        }
        Some(Scale { rate, unit })
    }

    /// The weight of an element, rounded down.
    pub fn weight_of(self, kind: Kind, value: Value) -> u64
        ensures { result ≡ weight kind value.value self.rate self.unit }
    {
        self.dividend(kind, value) / self.divisor(kind, value)
    }

    fn dividend(self, kind: Kind, value: Value) -> u64
        ensures { result ≡ dividend_of kind value.value self.rate }
    {
        match kind {
            Kind::Resistor => 1_000_000_000,
            Kind::Capacitor => self.doubled(value),
            Kind::Coil => 1_000_000_000_000_000,
        }
    }

    fn divisor(self, kind: Kind, value: Value) -> u64
        ensures value { result ≡ divisor_of kind value.value self.rate self.unit }
        ensures above { 0 < result }
    {
        match kind {
            Kind::Resistor => self.united(u64::from(value.get())),
            Kind::Capacitor => self.united(1_000),
            Kind::Coil => self.united(self.doubled(value)),
        }
    }

    // 2 v r
    fn doubled(self, value: Value) -> u64
        ensures value { result ≡ 2 * value.value * self.rate }
        ensures above { 0 < result }
        ensures bound { result ≤ 2 * largest_value * largest_rate }
    {
        2 * u64::from(value.get()) * u64::from(self.rate)
    }

    // x u
    fn united(self, x: u64) -> u64
        requires { (0 < x) × (x ≤ 2 * largest_value * largest_rate) }
        ensures value { result ≡ x * self.unit }
        ensures above { 0 < result }
    {
        x * u64::from(self.unit)
    }
}

/// Weights at 16,000 hertz and 10,000 nanosiemens.
#[derive(Clone, Copy)]
pub struct Examples {
    /// A coil of 100 millihenries.
    pub coil: u64,
    /// A capacitor of 100 nanofarads.
    pub capacitor: u64,
    /// A resistor of 600 ohms.
    pub resistor: u64,
    /// Resistors of 100,000, 100,001, 196 and 195 ohms: the last that weighs something, the first that weighs nothing, the last that is light
    /// enough and the first that is too heavy.
    pub faint: u64,
    pub nothing: u64,
    pub heavy: u64,
    pub too_heavy: u64,
}

/// The weights of some elements, as they follow from the definitions.
pub fn worked_examples() -> Examples
    ensures { Table result.coil result.capacitor result.resistor result.faint result.nothing result.heavy result.too_heavy }
{
    Examples {
        coil: 31,
        capacitor: 320,
        resistor: 166,
        faint: 1,
        nothing: 0,
        heavy: 510,
        too_heavy: 512,
    }
}
