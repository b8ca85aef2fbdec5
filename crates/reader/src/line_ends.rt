// The two ends of a line, each a node by its number.
ghost use Rattle.std.specs.Prelude.{◌-◌, ◌<◌, ◌≤◌, length, Some, None, Decides, MatchResult};
ghost use Rattle.cut.specs.Cuts.{bytes};
ghost use Rattle.names.specs.Alike.{Alike};
ghost use Rattle.refusals.specs.Order.{Least};
ghost use Rattle.reader.specs.Inner.{EndsFaultOf, EndsAre};

use crate::line::CutLine;
use crate::records::enter;
use crate::{Ends, MOST_NODES, Node};
use cut::Span;
use fixed::Fixed;
use refusals::{Fault, Rule};

fn same_name(text: &[u8], a: Span, b: Span) -> bool
    ensures { Decides result (Alike (bytes text.now a) (bytes text.now b)) }
{
    a.of(text).eq_ignore_ascii_case(b.of(text))
}

impl CutLine<'_> {
    // The ends of the line, none where it is of another kind or a field is missing.
    pub(crate) fn ends(&self, nodes: &mut Fixed<Node, MOST_NODES>) -> Result<Option<Ends>, Fault>
        ensures { MatchResult result
            (λ e. Least (EndsFaultOf self.now nodes.old) None × EndsAre self.now nodes.old nodes.new e)
            (λ f. Least (EndsFaultOf self.now nodes.old) (Some f)) }
    {
        if !self.kind.carries() {
            return Ok(None);
        }
        let [_, first, ..] = self.fields else {
            return Ok(None);
        };
        let from = enter(self.text, nodes, *first)?;
        let [_, _, second, ..] = self.fields else {
            return Ok(None);
        };
        let to = enter(self.text, nodes, *second)?;
        if same_name(self.text, *first, *second) {
            return Err(Rule::Joined.at(second.place));
        }
        Ok(Some(Ends { from, to }))
    }
}
