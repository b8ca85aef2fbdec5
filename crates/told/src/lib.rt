//! What is told of a refusal, whichever layer refuses.
#![tactic(auto)]

ghost use Rattle.std.specs.Prelude.{◌≡◌, Some};
ghost use Rattle.told.specs.Told.{written};
ghost use Rattle.told.specs.declared.Told.{Told};

use std::fmt;

/// What is told of a refusal: the layer that refuses, the number of the reason, and the byte of a text that it points at, or 0.
#[derive(Clone, Copy, Debug, PartialEq, Eq)]
pub struct Told {
    pub layer: u32,
    pub number: u32,
    pub place: u64,
}

/// Why a call refuses.
pub trait Tells {
    ghost says: { Self → Told };

    fn told(&self) -> Told
        ensures { result ≡ says self.now };
}

impl Tells for Told {
    ghost says = { λ t. t };

    fn told(&self) -> Told {
        *self
    }
}

impl fmt::Display for Told {
    ghost output = { λ t. Some (written t) };

    fn fmt<W: fmt::Write>(&self, f: &mut fmt::Formatter<W>) -> fmt::Result {
        write!(f, "refused {} {} {}", self.layer, self.number, self.place)
    }
}

#[cfg(test)]
mod tests {
    use super::Told;
    use std::test::Fail;

    #[test]
    fn prints_layer_number_and_place(rt: HostRuntime) -> Result<(), Fail> {
        let told = Told {
            layer: 1,
            number: 10,
            place: 17,
        };
        let line = format!(in rt.alloc(); "{told}")?;
        assert_eq!(rt; line.as_str(), "refused 1 10 17");
        Ok(())
    }
}
