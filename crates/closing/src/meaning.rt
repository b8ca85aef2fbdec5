ghost use Rattle.std.specs.Prelude.{◌≡◌, ℕ, ◌+◌, ◌*◌, ◌≤◌, ℤ};
ghost use Rattle.wave.specs.Numbers.{sq, held};
ghost use Rattle.wave.specs.declared.ratios.lowest.Ratio.{Ratio};
ghost use Rattle.closing.specs.Meaning.{Answers, Bounded};

use wave::{Ratio, Wave};

/// Answers a rising wave r, at a sample e, with a falling wave. Asking changes nothing and is never refused.
pub trait Closing: Sized {
    // `answers c r e q`: what the closing c lets fall on a port of ratio q
    ghost answers: { Self → ℤ → ℤ → Ratio → ℤ };

    fn answer(&self, r: i32, e: i32, ratio: Ratio) -> Wave
        ensures { result.value ≡ answers self.now r e ratio };

    ghost lawful: { Answers answers };
}

/// A closing that gives no more than it offers.
pub trait BoundedClosing: Closing {
    ghost offers: { Self → ℤ → ℕ };

    /// The most energy that it gives at the sample e.
    fn offer(&self, e: i32) -> u64
        ensures value { result ≡ offers self.now e }
        ensures bound { (r : ℤ) (q : Ratio) → q.num * sq (Self.Closing.answers self.now r e q) ≤ q.num * sq (held r) + q.den * result };

    ghost bounded: { Bounded Self.Closing.answers offers };
}
