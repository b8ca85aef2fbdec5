// Reads the value of an element: digits and a scale factor.
#![tactic(auto)]

ghost use Rattle.std.specs.Prelude.{◌≡◌, ℕ, ◌+◌, ◌-◌, ◌*◌, ◌<◌, ◌≤◌, true, map, length, option_map, IfSome, MatchResult, slice_index};
ghost use Rattle.std.specs.Char.{is_ascii_digit};
ghost use Rattle.std.specs.List.{prefix_len, find};
ghost use Rattle.values.specs.Limits.{most_digits};
ghost use Rattle.values.specs.Values.{decimal, row, fits_row, looked, factors, kind_word, kind_unit, Valued, ValueFault};

mod counted;

pub use counted::{LARGEST_VALUE, LEAST_VALUE, Value};

// The most digits of a value.
const MOST_DIGITS: usize = 6;

/// The kind of an element. Values of resistors are counted in ohms, of capacitors in picofarads, of coils in microhenries.
#[derive(Clone, Copy, Debug, PartialEq, Eq)]
pub enum Kind {
    Resistor,
    Capacitor,
    Coil,
}

impl Kind {
    /// What an element of this kind is called.
    pub fn word(self) -> &'static str
        ensures { result.now ≡ kind_word self }
    {
        match self {
            Kind::Resistor => "resistor",
            Kind::Capacitor => "capacitor",
            Kind::Coil => "coil",
        }
    }

    /// What a value of this kind counts.
    pub fn unit(self) -> &'static str
        ensures { result.now ≡ kind_unit self }
    {
        match self {
            Kind::Resistor => "ohms",
            Kind::Capacitor => "picofarads",
            Kind::Coil => "microhenries",
        }
    }
}

/// What may be wrong with a value: its form, or its size once it is scaled.
#[derive(Clone, Copy, Debug, PartialEq, Eq)]
pub enum Wrong {
    Form,
    Range,
}

// A scale factor: the kind that has it, its letters, and by how much it multiplies.
#[derive(Clone, Copy)]
struct Factor {
    kind: Kind,
    letters: &'static [u8],
    times: u64,
}

const FACTORS: [Factor; 10] = [
    Factor {
        kind: Kind::Resistor,
        letters: b"",
        times: 1,
    },
    Factor {
        kind: Kind::Resistor,
        letters: b"k",
        times: 1_000,
    },
    Factor {
        kind: Kind::Resistor,
        letters: b"meg",
        times: 1_000_000,
    },
    Factor {
        kind: Kind::Coil,
        letters: b"",
        times: 1_000_000,
    },
    Factor {
        kind: Kind::Coil,
        letters: b"m",
        times: 1_000,
    },
    Factor {
        kind: Kind::Coil,
        letters: b"u",
        times: 1,
    },
    Factor {
        kind: Kind::Capacitor,
        letters: b"",
        times: 1_000_000_000_000,
    },
    Factor {
        kind: Kind::Capacitor,
        letters: b"u",
        times: 1_000_000,
    },
    Factor {
        kind: Kind::Capacitor,
        letters: b"n",
        times: 1_000,
    },
    Factor {
        kind: Kind::Capacitor,
        letters: b"p",
        times: 1,
    },
];

// How many digits stand at the front.
fn digit_count(word: &[u8]) -> usize
    ensures { result ≡ prefix_len is_ascii_digit word.now }
{
    word.iter().take_while(|b| b.is_ascii_digit()).count()
}

fn decimal_of(digits: &[u8]) -> u64
    requires digits_len_bound { length digits.now ≤ most_digits }
    requires by_index { (k : ℕ) → k < length digits.now → is_ascii_digit (slice_index digits.now k) ≡ true }
    ensures value { result ≡ decimal digits.now }
    ensures bound { result < 1000000 }
{
    digits
        .iter()
        .fold(0, |sum, b| sum * 10 + u64::from(*b - b'0'))
}

impl Factor {
    // Whether it is the factor of this kind with these letters, of whatever case.
    fn fits(&self, kind: Kind, letters: &[u8]) -> bool
        ensures { result ≡ fits_row (row self.now) kind letters.now }
    {
        self.kind == kind && letters.eq_ignore_ascii_case(self.letters)
    }
}

// By how much the first factor in the table that fits multiplies.
fn look_up(table: &[Factor], kind: Kind, letters: &[u8]) -> Option<u64>
    ensures { result ≡ option_map (λ f. f.times) (find (λ f. fits_row (row f) kind letters.now) table.now) }
{
    table
        .iter()
        .find(|factor| factor.fits(kind, letters))
        .map(|factor| factor.times)
}

fn factor_of(kind: Kind, letters: &[u8]) -> Option<u64>
    ensures value { result ≡ looked factors kind letters.now }
    ensures bound { IfSome result (λ n. n ≤ 1000000000000) }
{
    look_up(&FACTORS, kind, letters)
}

// The scaled value of an element of this kind, in the unit that the kind counts, or what is wrong with the word.
pub fn value_of(kind: Kind, word: &[u8]) -> Result<Value, Wrong>
    ensures { MatchResult result (λ v. Valued kind word.now v.value) (λ x. ValueFault kind word.now x) }
{
    let count = digit_count(word);
    if count == 0 || count > MOST_DIGITS {
        return Err(Wrong::Form);
    }
    let (front, back) = word.split_at(count);
    let times = factor_of(kind, back).ok_or(Wrong::Form)?;
    let scaled = u32::try_from(decimal_of(front) * times).map_err(|_| Wrong::Range)?;
    Value::new(scaled).ok_or(Wrong::Range)
}
