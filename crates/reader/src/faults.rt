// The faults of one line.
ghost use Rattle.std.specs.Prelude.{◌≡◌, ◌+◌, ◌-◌, ◌<◌, ◌≤◌, true, length, Some, None, MatchResult};
ghost use Rattle.cut.specs.Cuts.{bytes, stop as stop_of};
ghost use Rattle.reader.specs.Limits.{most_elements};
ghost use Rattle.refusals.specs.Order.{Least};
ghost use Rattle.reader.specs.Lines.{nth};
ghost use Rattle.reader.specs.Records.{Among};
ghost use Rattle.reader.specs.Faults.{FormsFault, LongFault, MissingFault, NameFault};
ghost use Rattle.reader.specs.Inner.{PlainFaultOf, ValueFaultOf, ValueIs};

use crate::line::CutLine;
use crate::{Element, LARGEST_LINE, LineKind, MOST_ELEMENTS};
use names::find;
use refusals::{Fault, Rule, sooner};
use values::{Value, value_of};

impl CutLine<'_> {
    fn long_fault(&self) -> Option<Fault>
        ensures { Least (LongFault self.now.span.place (stop_of self.now.span)) result }
    {
        (self.span.len > LARGEST_LINE).then_some(Rule::TooLong.at(self.span.place + LARGEST_LINE))
    }

    fn missing_fault(&self) -> Option<Fault>
        ensures { Least (MissingFault (stop_of self.now.span) self.now.kind (length self.now.fields.now)) result }
    {
        let end = self.span.place + self.span.len;
        (self.fields.len() < self.kind.width()).then_some(Rule::Shape.at(end))
    }

    fn forms_fault(&self) -> Option<Fault>
        ensures { Least (FormsFault self.now.text.now self.now.kind self.now.fields.now (length self.now.fields.now)) result }
    {
        let mut least = None;
        for (k, field) in self.fields.iter().enumerate() {
            least = sooner(least, self.form_fault(k, *field));
        }
        least
    }

    // The value of an element, none where the line is of another kind or has no fourth field.
    pub(crate) fn value(&self) -> Result<Option<Value>, Fault>
        ensures { MatchResult result (λ v. Least (ValueFaultOf self.now) None × ValueIs self.now v) (λ f. Least (ValueFaultOf self.now) (Some f)) }
    {
        let LineKind::Part(part) = self.kind else {
            return Ok(None);
        };
        let [_, _, _, field, ..] = self.fields else {
            return Ok(None);
        };
        let word = field.of(self.text);
        let value = value_of(part, word).map_err(|wrong| Rule::from(wrong).at(field.place))?;
        Ok(Some(value))
    }

    // The name of an element is used before, or there are elements enough; or there is a port already.
    fn name_fault(&self, elements: &[Element], ported: bool) -> Option<Fault>
        ensures { Least (NameFault self.now.kind self.now.fields.now (Among (λ e. e.name) self.now.text.now elements.now (bytes self.now.text.now (nth self.now.fields.now 0))) (most_elements ≤ length elements.now) (ported ≡ true)) result }
    {
        let [name, ..] = self.fields else {
            return None;
        };
        match self.kind {
            LineKind::Part(_) => {
                // Kept: `is_some` was tried, and left open what the search says of the elements.
                if let Some(_) = find(elements, self.text, name.of(self.text)) {
                    Some(Rule::Twice.at(name.place))
                } else if elements.len() >= MOST_ELEMENTS {
                    Some(Rule::Full.at(name.place))
                } else {
                    None
                }
            }
            LineKind::Port if ported => Some(Rule::Twice.at(name.place)),
            _ => None,
        }
    }

    // The first fault of the line, but for its value and its ends.
    pub(crate) fn plain_fault(&self, elements: &[Element], ported: bool) -> Option<Fault>
        ensures { Least (PlainFaultOf self.now elements.now ported) result }
    {
        let missing = self.missing_fault();
        let name = self.name_fault(elements, ported);
        let forms = self.forms_fault();
        sooner(self.long_fault(), sooner(forms, sooner(missing, name)))
    }
}
