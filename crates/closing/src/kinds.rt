ghost use Rattle.std.specs.Prelude.{◌≡◌, ◌*◌, ◌≤◌, ℤ, pos, ◌-ℤ◌, ◌*ℤ◌, MatchResult, unsigned_abs};
ghost use Rattle.wave.specs.Numbers.{largest_wave};
ghost use Rattle.wave.specs.Refusals.{NoWeight};
ghost use Rattle.closing.specs.Kinds.{source_answers, source_offers, short_answers, fold, diode_answers, stiff_answers};
ghost use Rattle.closing.specs.Lawful.{short_lawful, short_bounded, diode_lawful, diode_bounded, stiff_lawful};
ghost use Rattle.closing.specs.Sources.{source_holds, source_wave, source_within};
ghost use Rattle.std.proofs.Common.{mul-zero};
ghost use Rattle.wave.proofs.Losses.{energy_most, held_most};

use crate::meaning::{BoundedClosing, Closing};
use wave::{Divisor, Ratio, Wave, Weight, WeightRefusal, shorten};

/// A source of the sample behind a resistance.
#[derive(Clone, Copy)]
pub struct Source {
    weight: Weight,
}

/// A short circuit.
#[derive(Clone, Copy)]
pub struct Short;

/// A diode without losses.
#[derive(Clone, Copy)]
pub struct Diode;

/// A source of the sample with nothing behind it. It may give any energy, so it is not bounded.
#[derive(Clone, Copy)]
pub struct Stiff;

impl Source {
    pub fn new(weight: u32) -> Result<Source, WeightRefusal>
        ensures { MatchResult result (λ s. s.weight.value ≡ weight) (λ w. NoWeight weight w) }
    {
        let weight = Weight::new(weight)?;
        Ok(Source { weight })
    }
}

// 2 e - r
fn doubled(r: Wave, e: Wave) -> i32
    ensures value { result ≡ pos 2 *ℤ e.value -ℤ r.value }
    ensures bound { unsigned_abs result ≤ 3 * largest_wave }
{
    2 * e.get() - r.get()
}

// g x
// Kept: bounded products differ in their widths and bounds, which are what each states; one function over both would be longer.
fn drawn(weight: Weight, x: i32) -> i32
    requires { unsigned_abs x ≤ 3 * largest_wave }
    ensures { result ≡ pos weight.value *ℤ x }
{
    weight.get() as i32 * x
}

// -|r|
fn folded(r: Wave) -> Wave
    ensures { result.value ≡ fold r.value }
{
    if r.get() > 0 { r.negated() } else { r }
}

impl Closing for Source {
    ghost answers = { source_answers };

    ghost lawful = { record { holds = source_holds; wave = source_wave } };

    fn answer(&self, r: i32, e: i32, ratio: Ratio) -> Wave {
        let r = Wave::hold(r);
        let x = doubled(r, Wave::hold(e));
        shorten(
            ratio.mixed(r.get(), drawn(self.weight, x)),
            ratio.sum(self.weight.get()),
        )
        .wave
    }
}

impl BoundedClosing for Source {
    ghost offers = { source_offers };

    ghost bounded = { record {
      silent = λ s. mul-zero s.weight.value;
      most = λ s e. energy_most _ _ s.weight.within.1 (held_most e);
      within = source_within;
    } };

    fn offer(&self, e: i32) -> u64 {
        self.weight.energy(Wave::hold(e))
    }
}

impl Closing for Short {
    ghost answers = { short_answers };

    ghost lawful = { short_lawful };

    fn answer(&self, r: i32, e: i32, ratio: Ratio) -> Wave {
        Wave::hold(r).negated()
    }
}

// Kept: short and diode both offer nothing, a line in each, and no shared code is shorter.
impl BoundedClosing for Short {
    ghost offers = { λ _ _. 0 };

    ghost bounded = { short_bounded };

    fn offer(&self, e: i32) -> u64 {
        0
    }
}

impl Closing for Diode {
    ghost answers = { diode_answers };

    ghost lawful = { diode_lawful };

    fn answer(&self, r: i32, e: i32, ratio: Ratio) -> Wave {
        folded(Wave::hold(r))
    }
}

impl BoundedClosing for Diode {
    ghost offers = { λ _ _. 0 };

    ghost bounded = { diode_bounded };

    fn offer(&self, e: i32) -> u64 {
        0
    }
}

impl Closing for Stiff {
    ghost answers = { stiff_answers };

    ghost lawful = { stiff_lawful };

    fn answer(&self, r: i32, e: i32, ratio: Ratio) -> Wave {
        shorten(doubled(Wave::hold(r), Wave::hold(e)) as i64, Divisor::ONE).wave
    }
}
