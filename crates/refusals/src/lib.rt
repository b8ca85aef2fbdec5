// The refusals of reading, each a broken rule and its place, and which of two is reported.
#![tactic(auto)]

ghost use Rattle.std.specs.Prelude.{◌≡◌, ◌≤◌};
ghost use Rattle.refusals.specs.Refusals.{number, rule_for, told};
ghost use Rattle.refusals.specs.Order.{first_of};

use told::{Tells, Told};
use values::Wrong;

// The rules that a listing may break, in the order of their numbers.
#[derive(Clone, Copy, Debug, PartialEq, Eq, PartialOrd, Ord)]
pub enum Rule {
    // the text is empty or too large
    Size = 1,
    // a line is too long
    TooLong,
    // a first field is unknown, a field is too many, stands after .end, or is missing
    Shape,
    // a name is not of the form of names
    BadName,
    // a value is not of the form of values
    BadValue,
    // a value is too small or too large
    OutOfRange,
    // an element's name is used before, or a port line came before
    Twice,
    // an element or a node too many
    Full,
    // there is no port line, no element or no .end
    Wanting,
    // both ends are at one node
    Joined,
}

impl Rule {
    // The number of the rule, 1 to 10.
    pub fn number(self) -> u32
        ensures value { result ≡ number self }
        ensures ten { result ≤ 10 }
    {
        self as u32
    }

    // The rule is broken at this place.
    pub fn at(self, place: usize) -> Fault
        ensures { result ≡ record { place = place; rule = self } }
    {
        Fault { place, rule: self }
    }
}

// What is wrong with a value, as a rule of the listing.
impl From<Wrong> for Rule {
    ghost from_gives = { λ w r. r ≡ rule_for w };

    fn from(wrong: Wrong) -> Rule {
        match wrong {
            Wrong::Form => Rule::BadValue,
            Wrong::Range => Rule::OutOfRange,
        }
    }
}

// A refusal in reading: the broken rule, and the place where it is broken, the byte of the text counted from 0. The earlier of two is the lesser.
#[derive(Clone, Copy, Debug, PartialEq, Eq, PartialOrd, Ord)]
pub struct Fault {
    pub place: usize,
    pub rule: Rule,
}

// Reading is the first layer of all that may refuse.
const LAYER: u32 = 1;

impl Tells for Fault {
    ghost says = { told };

    fn told(&self) -> Told {
        Told {
            layer: LAYER,
            number: self.rule.number(),
            place: self.place as u64,
        }
    }
}

// The fault that is reported of two.
#[tactic(auto, using(crate::proofs::Lesser::lesser_first))]
pub fn sooner(a: Option<Fault>, b: Option<Fault>) -> Option<Fault>
    ensures { result ≡ first_of a b }
{
    match (a, b) {
        (Some(f), Some(g)) => Some(f.min(g)),
        (f, g) => f.or(g),
    }
}
