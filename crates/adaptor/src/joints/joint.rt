ghost use Rattle.std.specs.Prelude.{◌≡◌, ◌+◌, ◌*◌, ◌≤◌};
ghost use Rattle.wave.specs.Terms.{largest_number};
ghost use Rattle.port.specs.Meaning.{largest_size};
ghost use Rattle.adaptor.specs.Ways.{whole_num, whole_den};

use crate::ways::Way;
use port::Part;
use wave::{Divisor, Ratio};

/// The numbers of two joined parts: their ratio as a whole, and the shares of the two, which add up to the total.
#[derive(Clone, Copy, Debug, PartialEq, Eq)]
pub struct Joint {
    pub(super) way: Way,
    pub(super) left: Part,
    pub(super) right: Part,
    pub(super) ratio: Ratio,
    pub(super) shares: Ratio,
    pub(super) total: Divisor,
    ghost scaled: { ratio.num * whole_den way left.ratio.num left.ratio.den right.ratio.num right.ratio.den ≡ ratio.den * whole_num way left.ratio.num left.ratio.den right.ratio.num right.ratio.den },
    ghost shared: { shares.num * (right.ratio.num * left.ratio.den) ≡ shares.den * (left.ratio.num * right.ratio.den) },
    ghost summed: { (total.value ≡ shares.num + shares.den) × (total.value ≤ largest_number) },
    ghost sized: { (left.size + right.size ≤ largest_size) × (left.ears + right.ears ≤ 1) },
}
