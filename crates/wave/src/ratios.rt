mod lowest;

ghost use Rattle.std.specs.Prelude.{◌≡◌, ◌+◌, ◌*◌, ◌^◌, ◌≤◌, ℤ, pos, ◌+ℤ◌, ◌*ℤ◌, MatchResult, unsigned_abs};
ghost use Rattle.wave.specs.Terms.{Reduced, Only, largest_number};
ghost use Rattle.wave.specs.Refusals.{NoRatio, ratio_row};

use crate::LAYER;
use crate::divisors::gcd;
use crate::shortening::Divisor;
use crate::weights::Weight;
pub use lowest::{LARGEST_NUMBER, Ratio};
use told::{Tells, Told};

/// Why two numbers make no ratio.
#[derive(Clone, Copy, Debug, PartialEq, Eq)]
pub enum RatioRefusal {
    /// One of them is 0.
    Zero,
    /// In lowest terms one is over `LARGEST_NUMBER`.
    Large,
}

impl Tells for RatioRefusal {
    ghost says = { ratio_row };

    fn told(&self) -> Told {
        Told {
            layer: LAYER,
            number: 14,
            place: 0,
        }
    }
}

// p x
// Kept: bounded products differ in their widths and bounds, which are what each states; one function over both would be longer.
fn scaled(p: u32, x: i32) -> i64
    requires { p ≤ largest_number }
    ensures value { result ≡ pos p *ℤ x }
    ensures bound { unsigned_abs result ≤ largest_number * 2 ^ 31 }
{
    p as i64 * x as i64
}

/// The weight over 1.
impl From<Weight> for Ratio {
    ghost from_gives = { λ w r. (r.num ≡ w.value) × (r.den ≡ 1) };

    fn from(weight: Weight) -> Ratio {
        Ratio {
            num: weight.get(),
            den: 1,
        }
    }
}

impl Ratio {
    /// a / b in lowest terms.
    pub fn new(a: u64, b: u64) -> Result<Ratio, RatioRefusal>
        ensures { MatchResult result (λ q. Reduced a b q.num q.den × Only a b q.num q.den) (λ w. NoRatio a b w) }
    {
        if a == 0 || b == 0 {
            return Err(RatioRefusal::Zero);
        }
        let by = gcd(a, b);
        let num = a / by;
        let den = b / by;
        if num > LARGEST_NUMBER || den > LARGEST_NUMBER {
            return Err(RatioRefusal::Large);
        }
        Ok(Ratio {
            num: num as u32,
            den: den as u32,
        })
    }

    pub fn num(self) -> u32
        ensures { result ≡ self.num }
    {
        self.num
    }

    pub fn den(self) -> u32
        ensures { result ≡ self.den }
    {
        self.den
    }

    /// num * x + den * y
    pub fn mixed(self, x: i32, y: i32) -> i64
        ensures { result ≡ pos self.num *ℤ x +ℤ pos self.den *ℤ y }
    {
        scaled(self.num, x) + scaled(self.den, y)
    }

    /// num + den * times
    pub fn sum(self, times: u32) -> Divisor
        ensures { result.value ≡ self.num + self.den * times }
    {
        Divisor {
            value: self.num as u64 + self.den as u64 * times as u64,
        }
    }
}
