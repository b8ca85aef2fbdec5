ghost use Rattle.std.specs.Prelude.{◌<◌, ◌≤◌, length};
ghost use Rattle.cut.specs.Cuts.{stop as stop_of};
ghost use Rattle.reader.specs.Lines.{nth};

use crate::LineKind;
use cut::Span;

// A line of a text, with its first five fields and the kind as which it stands.
#[derive(Clone, Copy)]
pub struct CutLine<'a> {
    pub(crate) text: &'a [u8],
    pub(crate) span: Span,
    pub(crate) fields: &'a [Span],
    pub(crate) kind: LineKind,
    ghost within: { stop_of span ≤ length text.now },
    ghost ordered: { 2 < length fields.now → (nth fields.now 1).place ≤ (nth fields.now 2).place },
}
