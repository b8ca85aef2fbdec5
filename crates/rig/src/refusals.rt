ghost use Rattle.rig.specs.Refusals.{row};

use told::{Tells, Told};

/// Why a call of a rig is refused.
#[derive(Clone, Copy, Debug, PartialEq, Eq)]
pub enum Refusal {
    /// The sample or the falling wave is beyond the largest wave.
    Beyond,
    /// A wave is open.
    WaveOpen,
    /// The open wave is not this rig's, or no longer open.
    Misfit,
    /// The page has not enough entries left.
    PageFull,
    /// A block's length is odd, or its output is shorter than its input.
    BlockLength,
}

impl Tells for Refusal {
    ghost says = { row };

    fn told(&self) -> Told {
        Told {
            layer: 3,
            number: match self {
                Refusal::Beyond => 17,
                Refusal::WaveOpen => 18,
                Refusal::Misfit => 19,
                Refusal::PageFull => 20,
                Refusal::BlockLength => 21,
            },
            // a call of a rig has no text, so its refusals have no place in one
            place: 0,
        }
    }
}
