ghost use Rattle.std.specs.Prelude.{◌≡◌, ◌<◌, ◌≤◌, MatchOption};
ghost use Rattle.values.specs.Limits.{InRange};

/// The largest scaled value.
pub const LARGEST_VALUE: u32 = 100_000_000;

/// The value of an element, scaled: ohms of a resistor, picofarads of a capacitor, microhenries of a coil.
#[derive(Clone, Copy, Debug, PartialEq, Eq, PartialOrd)]
pub struct Value {
    value: u32,
    ghost within: { InRange value },
}

/// The smallest value.
pub const LEAST_VALUE: Value = Value { value: 1 };

impl Value {
    // Kept: a checked constructor by its name; `TryFrom` would only rename it, and an error would say no more than none does.
    /// None where the number is 0 or too large.
    pub fn new(value: u32) -> Option<Value>
        ensures { MatchOption result (InRange value → ⊥) (λ v. v.value ≡ value) }
    {
        if value == 0 || value > LARGEST_VALUE {
            return None;
        }
        Some(Value { value })
    }

    pub fn get(self) -> u32
        ensures value { result ≡ self.value }
        ensures range { InRange result }
    {
        self.value
    }
}
