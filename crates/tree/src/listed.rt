mod whole;

ghost use Rattle.std.specs.Prelude.{◌≡◌};
ghost use Rattle.tree.specs.Models.{reads, Took, Emptied};
ghost use Rattle.tree.specs.Law.{sound, took_fall, emptied_cleared};

use port::{Port, Taken};
use wave::{Ratio, Wave};
pub use whole::ListingTree;

impl Port for ListingTree {
    ghost reads = { λ s. reads s.tree };

    ghost takes = { λ s f t z. Took s.tree f t z.tree };

    ghost clears = { λ s e z. Emptied s.tree e z.tree };

    ghost lawful = { record {
      sound = λ s. sound s.tree s.fits;
      fall = λ s f t z h. took_fall s.tree f t z.tree s.fits h;
      cleared = λ s e z h. emptied_cleared s.tree e z.tree h;
    } };

    fn ratio(&self) -> Ratio {
        self.tree.ratio()
    }

    fn size(&self) -> u32 {
        self.tree.size()
    }

    fn ears(&self) -> u32 {
        self.tree.ears()
    }

    fn rising(&self) -> Wave {
        self.tree.rising()
    }

    fn stored(&self) -> u64 {
        self.tree.stored()
    }

    fn take(&mut self, f: i32) -> Taken {
        self.tree.take(f).taken
    }

    fn clear(&mut self) -> u64 {
        self.tree.clear()
    }
}
