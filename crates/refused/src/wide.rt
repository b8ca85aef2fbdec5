ghost use Rattle.refused.specs.Wide.{wide_reads, wide_takes, wide_clears};
ghost use Rattle.refused.specs.Lawful.{wide_laws};

use port::{LARGEST_SIZE, Port, Resistor, Taken};
use wave::{Ratio, Wave};

/// A resistor that counts as a port of the largest size. Of elements alone no such type can be written: it would have too many fields.
#[derive(Clone, Copy)]
pub struct Wide {
    pub resistor: Resistor,
}

impl Port for Wide {
    ghost reads = { wide_reads };

    ghost takes = { wide_takes };

    ghost clears = { wide_clears };

    ghost lawful = { wide_laws };

    fn ratio(&self) -> Ratio {
        self.resistor.ratio()
    }

    fn size(&self) -> u32 {
        LARGEST_SIZE
    }

    fn ears(&self) -> u32 {
        self.resistor.ears()
    }

    fn rising(&self) -> Wave {
        self.resistor.rising()
    }

    fn stored(&self) -> u64 {
        self.resistor.stored()
    }

    fn take(&mut self, f: i32) -> Taken {
        self.resistor.take(f)
    }

    fn clear(&mut self) -> u64 {
        self.resistor.clear()
    }
}
