ghost use Rattle.std.specs.Prelude.{◌≡◌, ℕ, ℤ};
ghost use Rattle.port.specs.Meaning.{Readings, Laws};
ghost use Rattle.port.specs.declared.takings.Taken.{Taken};

use crate::takings::Taken;
use wave::{Ratio, Wave};

/// A port: what can be read off it, what it does with a falling wave, and the laws of both. No call refuses.
pub trait Port: Sized {
    ghost reads: { Self → Readings };

    // `takes p f t q`: the port p takes the falling wave f, answers t and is then q
    ghost takes: { Self → ℤ → Taken → Self → Type 0 };

    // `clears p e q`: the port p drops the energy e and is then q
    ghost clears: { Self → ℕ → Self → Type 0 };

    fn ratio(&self) -> Ratio
        ensures { (result.num ≡ (reads self.now).num) × (result.den ≡ (reads self.now).den) };

    fn size(&self) -> u32
        ensures { result ≡ (reads self.now).size };

    fn ears(&self) -> u32
        ensures { result ≡ (reads self.now).ears };

    /// The wave that rises from it.
    fn rising(&self) -> Wave
        ensures { result.value ≡ (reads self.now).rising };

    /// The energy that it holds.
    fn stored(&self) -> u64
        ensures { result ≡ (reads self.now).stored };

    /// The wave f, held, falls into it.
    fn take(&mut self, f: i32) -> Taken
        ensures { takes self.old f result self.new };

    /// Drops what it holds, and answers how much that was.
    fn clear(&mut self) -> u64
        ensures { clears self.old result self.new };

    ghost lawful: { Laws reads takes clears };
}
