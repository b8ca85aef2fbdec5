ghost use Rattle.std.specs.Prelude.{◌≡◌, pos, MatchResult};
ghost use Rattle.wave.specs.Refusals.{NoWeight};
ghost use Rattle.port.specs.Elements.{raised, storage_reads, Stores, Drops, AtRest, resistor_reads, Absorbs, resistor_clears};
ghost use Rattle.port.specs.Lawful.{storage_laws, resistor_laws};

use crate::meaning::Port;
use crate::takings::Taken;
use wave::{Ratio, Wave, Weight, WeightRefusal};

/// Which element keeps the wave.
#[derive(Clone, Copy, Debug, PartialEq, Eq)]
pub enum StorageKind {
    /// It raises the wave that it keeps.
    Capacitor,
    /// It raises the opposite of the wave that it keeps.
    Coil,
}

/// A capacitor or a coil: keeps the wave that fell last, and its energy.
#[derive(Clone, Copy, Debug, PartialEq, Eq)]
pub struct Storage {
    kind: StorageKind,
    weight: Weight,
    state: Wave,
}

/// Raises nothing, absorbs every wave, and with an ear hears it.
#[derive(Clone, Copy, Debug, PartialEq, Eq)]
pub struct Resistor {
    weight: Weight,
    ear: bool,
}

impl Storage {
    /// A capacitor or a coil at rest.
    pub fn new(kind: StorageKind, weight: u32) -> Result<Storage, WeightRefusal>
        ensures { MatchResult result (λ c. AtRest kind weight c) (λ w. NoWeight weight w) }
    {
        let weight = Weight::new(weight)?;
        Ok(Storage {
            kind,
            weight,
            state: Wave::ZERO,
        })
    }
}

impl Resistor {
    pub fn new(weight: u32, ear: bool) -> Result<Resistor, WeightRefusal>
        ensures { MatchResult result (λ c. (c.weight.value ≡ weight) × (c.ear ≡ ear)) (λ w. NoWeight weight w) }
    {
        let weight = Weight::new(weight)?;
        Ok(Resistor { weight, ear })
    }
}

impl Port for Storage {
    ghost reads = { storage_reads };

    ghost takes = { Stores };

    ghost clears = { Drops };

    ghost lawful = { storage_laws };

    fn ratio(&self) -> Ratio {
        Ratio::from(self.weight)
    }

    fn size(&self) -> u32 {
        1
    }

    fn ears(&self) -> u32 {
        0
    }

    fn rising(&self) -> Wave {
        match self.kind {
            StorageKind::Capacitor => self.state,
            StorageKind::Coil => self.state.negated(),
        }
    }

    fn stored(&self) -> u64 {
        self.weight.energy(self.state)
    }

    fn take(&mut self, f: i32) -> Taken {
        self.state = Wave::hold(f);
        Taken {
            absorbed: 0,
            shortened: 0,
            heard: 0,
        }
    }

    fn clear(&mut self) -> u64 {
        let dropped = self.stored();
        self.state = Wave::ZERO;
        dropped
    }
}

impl Port for Resistor {
    ghost reads = { resistor_reads };

    ghost takes = { Absorbs };

    ghost clears = { resistor_clears };

    ghost lawful = { resistor_laws };

    fn ratio(&self) -> Ratio {
        Ratio::from(self.weight)
    }

    fn size(&self) -> u32 {
        1
    }

    fn ears(&self) -> u32 {
        u32::from(self.ear)
    }

    fn rising(&self) -> Wave {
        Wave::ZERO
    }

    fn stored(&self) -> u64 {
        0
    }

    fn take(&mut self, f: i32) -> Taken {
        let f = Wave::hold(f);
        Taken {
            absorbed: self.weight.energy(f),
            shortened: 0,
            heard: if self.ear { f.get() } else { 0 },
        }
    }

    fn clear(&mut self) -> u64 {
        0
    }
}
