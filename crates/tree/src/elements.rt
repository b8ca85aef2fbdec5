ghost use Rattle.std.specs.Prelude.{◌≡◌};
ghost use Rattle.tree.specs.Elements.{element_reads, ElementTakes, ElementClears, BuiltIn};
ghost use Rattle.tree.specs.Leaves.{element_laws};

use port::{Port, Resistor, Storage, Taken};
use wave::{Ratio, Wave};

// Kept: a port of two kinds is an enum, matched in each method; a `dyn Port` would need a box for each leaf, and joining takes no memory.
/// What stands at a leaf. Only a capacitor or a coil keeps a wave, and only a resistor can have an ear.
#[derive(Clone, Copy, Debug, PartialEq, Eq)]
pub enum Body {
    Store(Storage),
    Resist(Resistor),
}

/// An element of a listing; `index` is its place there, counted from 0.
#[derive(Clone, Copy, Debug, PartialEq, Eq)]
pub struct Element {
    pub index: u32,
    pub body: Body,
}

impl Element {
    // The first of a listing: a resistor of weight 1 without an ear.
    pub(crate) fn built_in() -> Element
        ensures { BuiltIn result }
    {
        Element {
            index: 0,
            body: Body::Resist(Resistor::new(1, false).unwrap()),
        }
    }
}

impl Port for Element {
    ghost reads = { element_reads };

    ghost takes = { ElementTakes };

    ghost clears = { ElementClears };

    ghost lawful = { element_laws };

    fn ratio(&self) -> Ratio {
        match &self.body {
            Body::Store(c) => c.ratio(),
            Body::Resist(r) => r.ratio(),
        }
    }

    fn size(&self) -> u32 {
        1
    }

    fn ears(&self) -> u32 {
        match &self.body {
            Body::Store(c) => c.ears(),
            Body::Resist(r) => r.ears(),
        }
    }

    fn rising(&self) -> Wave {
        match &self.body {
            Body::Store(c) => c.rising(),
            Body::Resist(r) => r.rising(),
        }
    }

    fn stored(&self) -> u64 {
        match &self.body {
            Body::Store(c) => c.stored(),
            Body::Resist(r) => r.stored(),
        }
    }

    fn take(&mut self, f: i32) -> Taken {
        match &mut self.body {
            Body::Store(c) => c.take(f),
            Body::Resist(r) => r.take(f),
        }
    }

    fn clear(&mut self) -> u64 {
        match &mut self.body {
            Body::Store(c) => c.clear(),
            Body::Resist(r) => r.clear(),
        }
    }
}
