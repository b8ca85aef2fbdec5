// Cuts a text into lines and a line into fields, each a span of the text.
#![tactic(auto)]

ghost use Rattle.std.specs.Prelude.{◌≡◌, ◌+◌, ◌-◌, ◌<◌, ◌≤◌, ◌==◌, [], length, IfOk, MatchOption, string_bytes};
ghost use Rattle.std.specs.List.{prefix_len, position_or_len};
ghost use Rattle.std.specs.Str.{IsUtf8};
ghost use Rattle.std.specs.Str.Lossy.{utf8_lossy};
ghost use Rattle.cut.specs.Cuts.{blank, bytes, stop as stop_of, LineTo, AllBlank, FieldAt, FirstFields};

use fixed::Fixed;
use std::alloc::{AllocError, Global};

// A part of a text: the place of its first byte, counted from 0, and how many bytes it has.
#[derive(Clone, Copy, Debug, PartialEq, Eq)]
pub struct Span {
    pub place: usize,
    pub len: usize,
}

impl Span {
    // The bytes of the text that the span covers; past the text's end there are none.
    pub fn of(self, text: &[u8]) -> &[u8]
        ensures { result.now ≡ bytes text.now self }
    {
        let Span { place, len } = self;
        if place >= text.len() {
            return &text[..0];
        }
        let rest = &text[place..];
        if len >= rest.len() {
            return rest;
        }
        &rest[..len]
    }

    // These bytes as a String of its own, with U+FFFD for what is no UTF-8.
    pub fn text(self, heap: Global, text: &[u8]) -> Result<String, AllocError>
        ensures valid { IfOk result (λ t. IsUtf8 (bytes text.now self) → string_bytes t ≡ bytes text.now self) }
        ensures lossy { IfOk result (λ t. string_bytes t ≡ utf8_lossy (bytes text.now self)) }
    {
        String::from_utf8_lossy(heap, self.of(text))
    }
}

fn is_blank(b: u8) -> bool
    ensures { result ≡ blank b }
{
    b == b' ' || b == b'\t'
}

// Kept: a function for each test; with the test as a parameter, the proof that the chain may call it did not close.

// How many bytes stand before the first line feed.
fn line_len(bytes: &[u8]) -> usize
    ensures run { result ≡ position_or_len (λ b. b == 10) bytes.now }
    ensures bound { result ≤ length bytes.now }
{
    bytes.iter().take_while(|b| **b != b'\n').count()
}

// How many bytes at the front are blank.
fn gap_len(bytes: &[u8]) -> usize
    ensures run { result ≡ prefix_len blank bytes.now }
    ensures bound { result ≤ length bytes.now }
{
    bytes.iter().take_while(|b| is_blank(**b)).count()
}

// How many bytes stand before the first blank.
fn word_len(bytes: &[u8]) -> usize
    ensures run { result ≡ position_or_len blank bytes.now }
    ensures bound { result ≤ length bytes.now }
{
    bytes.iter().take_while(|b| !is_blank(**b)).count()
}

// Where the line that starts at this place ends: at its line feed, or at the text's end.
pub fn line_end(text: &[u8], start: usize) -> usize
    ensures within { start ≤ length text.now → LineTo text.now start result }
    ensures beyond { length text.now < start → result ≡ start }
{
    match text.get(start..) {
        Some(rest) => start + line_len(rest),
        None => start,
    }
}

// The first field between two places of the text.
fn next_field(text: &[u8], from: usize, end: usize) -> Option<Span>
    requires { (from ≤ end) × (end ≤ length text.now) }
    ensures { MatchOption result (AllBlank text.now from end) (λ f. FieldAt text.now from end f) }
{
    let place = from + gap_len(&text[from..end]);
    let len = word_len(&text[place..end]);
    if len == 0 {
        return None;
    }
    Some(Span { place, len })
}

// The first fields of a line, and of a longer line the first five; none of a line that is not in the text.
pub fn fields_of(text: &[u8], line: Span) -> Fixed<Span, 5>
    ensures within { stop_of line ≤ length text.now → FirstFields text.now line.place (stop_of line) result }
    ensures beyond { length text.now < stop_of line → result ≡ [] }
{
    let mut found = Fixed::new(line);
    if line.len > text.len() || line.place > text.len() - line.len {
        return found;
    }
    let end = line.place + line.len;
    let mut from = line.place;
    // Kept: an iterator over the fields would carry the same place from turn to turn, and state this loop's invariant as its ghost members.
    while let Some(field) = next_field(text, from, end) {
        let _ = found.push(field);
        from = field.place + field.len;
    }
    found
}

#[cfg(test)]
mod tests {
    use super::*;

    #[test]
    fn a_name_as_the_text_has_it(rt: HostRuntime) -> Result<(), AllocError> {
        let name = Span { place: 5, len: 2 };
        let told = name.text(rt.alloc(), b"door\nR1 b 0 600\n")?;
        assert_eq!(rt; told.as_str(), "R1");
        Ok(())
    }
}
