// The words of a line, and the kind that the first one gives it.
ghost use Rattle.std.specs.Prelude.{◌≡◌, ◌-◌, ◌<◌, Decides};
ghost use Rattle.refusals.specs.Order.{Least};
ghost use Rattle.reader.specs.Lines.{kind_of, closing, kind_of_line, past as past_end, width as field_count, Carries};
ghost use Rattle.reader.specs.Faults.{NameForm, FieldFormFault};
ghost use Rattle.reader.specs.Inner.{standing};
ghost use Rattle.reader.specs.Words.{WordIs};

use crate::line::CutLine;
use crate::{LARGEST_NAME, LineKind};
use cut::Span;
use refusals::{Fault, Rule};
use values::Kind;

impl LineKind {
    // How many fields such a line has at least.
    pub(crate) fn width(self) -> usize
        ensures { result ≡ field_count self }
    {
        match self {
            LineKind::Passed | LineKind::Strange => 0,
            LineKind::Part(_) => 4,
            LineKind::Port => 3,
            LineKind::Close => 1,
        }
    }

    // Whether such a line has two ends.
    pub(crate) fn carries(self) -> bool
        ensures { Decides result (Carries self) }
    {
        match self {
            LineKind::Part(_) | LineKind::Port => true,
            LineKind::Passed | LineKind::Close | LineKind::Strange => false,
        }
    }

    // What such a line is past .end.
    fn past_end(self) -> LineKind
        ensures { result ≡ past_end self }
    {
        match self {
            LineKind::Passed => LineKind::Passed,
            _ => LineKind::Strange,
        }
    }
}

// The kind of an element by the first byte of its name.
fn kind_of(initial: u8) -> Option<Kind>
    ensures { result ≡ kind_of initial }
{
    match initial.to_ascii_lowercase() {
        b'r' => Some(Kind::Resistor),
        b'c' => Some(Kind::Capacitor),
        b'l' => Some(Kind::Coil),
        _ => None,
    }
}

// Whether a word is .end, of whatever case.
fn is_closing(word: &[u8]) -> bool
    ensures { result ≡ closing word.now }
{
    let [first, rest @ ..] = word else {
        return false;
    };
    *first == b'.' && rest.eq_ignore_ascii_case(b"end")
}

// The kind of a line by its fields.
// Kept: the project's rule takes fields apart by slice patterns and chooses the kind by `if let`.
pub(crate) fn line_kind(text: &[u8], fields: &[Span]) -> LineKind
    ensures { result ≡ kind_of_line text.now fields.now }
{
    let [first, ..] = fields else {
        return LineKind::Passed;
    };
    let word = first.of(text);
    let [initial, ..] = word else {
        return LineKind::Strange;
    };
    if *initial == b'*' {
        LineKind::Passed
    } else if let Some(kind) = kind_of(*initial) {
        LineKind::Part(kind)
    } else if let b'V' | b'v' = *initial {
        LineKind::Port
    } else if is_closing(word) {
        LineKind::Close
    } else {
        LineKind::Strange
    }
}

// The kind as which a line stands that starts at this place: the first line is the title, and past .end other rules hold.
pub(crate) fn standing_as(start: usize, closed: bool, kind: LineKind) -> LineKind
    ensures { result ≡ standing start closed kind }
{
    if start == 0 {
        LineKind::Passed
    } else if closed {
        kind.past_end()
    } else {
        kind
    }
}

fn is_name(word: &[u8]) -> bool
    ensures { Decides result (NameForm word.now) }
{
    !word.is_empty() && word.len() <= LARGEST_NAME && word.iter().all(|b| b.is_ascii_alphanumeric())
}

// A word of a line: its bytes, and its place in the text.
// Kept: the project's rule has the words of a listing as an enum that borrows the text.
#[derive(Clone, Copy)]
pub enum Word<'a> {
    Name(&'a [u8], usize),
    Node(&'a [u8], usize),
    Value(&'a [u8], usize),
    Dot(&'a [u8], usize),
}

impl<'a> CutLine<'a> {
    // What the k-th field of the line is, if a line of this kind has so many.
    fn word(&self, k: usize, field: Span) -> Option<Word<'a>>
        ensures { WordIs self.now.text.now self.now.kind k field result }
    {
        let bytes = field.of(self.text);
        if k >= self.kind.width() {
            None
        } else if let LineKind::Close = self.kind {
            Some(Word::Dot(bytes, field.place))
        } else if k == 0 {
            Some(Word::Name(bytes, field.place))
        } else if k < 3 {
            Some(Word::Node(bytes, field.place))
        } else {
            Some(Word::Value(bytes, field.place))
        }
    }

    // The fault of the k-th field by its form; values apart.
    pub(crate) fn form_fault(&self, k: usize, field: Span) -> Option<Fault>
        ensures { Least (FieldFormFault self.now.text.now self.now.kind k field) result }
    {
        if let LineKind::Passed = self.kind {
            return None;
        }
        match self.word(k, field) {
            None => Some(Rule::Shape.at(field.place)),
            Some(Word::Name(bytes, place) | Word::Node(bytes, place)) if !is_name(bytes) => {
                Some(Rule::BadName.at(place))
            }
            Some(_) => None,
        }
    }
}
