// Records that have a name in the text, and the search of one by its name.
#![tactic(auto)]

ghost use Rattle.std.specs.Prelude.{◌≡◌, ◌-◌, ◌<◌, length, MatchOption};
ghost use Rattle.cut.specs.declared.Span.{Span as SpanIs};
ghost use Rattle.names.specs.Alike.{NoneCalled, FirstCalled};

use cut::Span;

// A record that keeps the place and the length of its name.
pub trait Named {
    ghost named: { Self → SpanIs };

    fn name(&self) -> Span
        ensures { result ≡ named self.now };
}

// Where the first record with this name stands.
pub fn find<R: Named>(records: &[R], text: &[u8], name: &[u8]) -> Option<usize>
    ensures { MatchOption result
        (NoneCalled R.Named.named text.now name.now records.now (length records.now))
        (λ i. FirstCalled R.Named.named text.now name.now records.now i) }
{
    records
        .iter()
        .position(|record| record.name().of(text).eq_ignore_ascii_case(name))
}
