ghost use Rattle.std.specs.Prelude.{◌≡◌};
ghost use Rattle.assembly.specs.Assemblies.{row};
ghost use Rattle.assembly.specs.declared.faults.AssemblyFault.TheVariants.{Reading};

use refusals::Fault;
use told::{Tells, Told};

// Assembling is the second layer that may refuse.
const LAYER: u32 = 2;

/// Why no tree is made of a text.
#[derive(Clone, Copy, Debug, PartialEq, Eq)]
pub enum AssemblyFault {
    /// The text is refused in reading.
    Reading(Fault),
    /// The rate or the unit is out of range.
    OutOfRange,
    /// The element with its name at this place has no weight from 1 to the largest.
    BadWeight(usize),
    /// No step is left, and the branches are not one between the ends of the port.
    Irreducible,
    /// Two branches that are joined next make too large a number. The place is that of the first element's name of the lower one.
    TooLarge(usize),
    /// The name for the ear is that of no resistor of the listing.
    NoEar,
}

impl From<Fault> for AssemblyFault {
    ghost from_gives = { λ f r. r ≡ Reading f };

    fn from(fault: Fault) -> AssemblyFault {
        AssemblyFault::Reading(fault)
    }
}

impl Tells for AssemblyFault {
    ghost says = { row };

    fn told(&self) -> Told {
        let (number, place) = match *self {
            AssemblyFault::Reading(fault) => return fault.told(),
            AssemblyFault::OutOfRange => (11, 0),
            AssemblyFault::BadWeight(place) => (12, place),
            AssemblyFault::Irreducible => (13, 0),
            AssemblyFault::TooLarge(place) => (14, place),
            AssemblyFault::NoEar => (15, 0),
        };
        Told {
            layer: LAYER,
            number,
            place: place as u64,
        }
    }
}
