// Reads a listing line by line.
ghost use Rattle.std.specs.Prelude.{◌≡◌, ℕ, ◌+◌, ◌-◌, ◌<◌, ◌≤◌, List, length, None, Some, MatchResult};
ghost use Rattle.cut.specs.declared.Span.{Span as SpanIs};
ghost use Rattle.refusals.specs.Order.{Least};
ghost use Rattle.reader.specs.Limits.{largest_text};
ghost use Rattle.reader.specs.Inner.{CutInto, FaultOf, Taken, Sofar};
ghost use Rattle.reader.specs.Answers.{Reads, Refuses, Only};

use crate::line::CutLine;
use crate::words::{line_kind, standing_as};
use crate::{
    Element, Ends, LARGEST_TEXT, LineKind, Listing, MOST_ELEMENTS, MOST_NODES, Node, NodeNumber,
    PortRecord,
};
use cut::{Span, fields_of, line_end};
use fixed::Fixed;
use refusals::{Fault, Rule, sooner};
use values::{Kind, LEAST_VALUE};

// What fills the room for elements and nodes before there are any.
const NOWHERE: Span = Span { place: 0, len: 0 };

const FIRST: NodeNumber = NodeNumber { index: 0 };

// What the lines so far hold.
#[derive(Drop)]
pub struct Reading {
    pub(crate) nodes: Fixed<Node, MOST_NODES>,
    pub(crate) elements: Fixed<Element, MOST_ELEMENTS>,
    pub(crate) port: Option<PortRecord>,
    // Kept: it says that .end was read, and no value goes with it.
    pub(crate) closed: bool,
}

impl Reading {
    fn new() -> Reading
        ensures { (t : List ℕ) → 0 < length t → Sofar t 0 result }
    {
        Reading {
            nodes: Fixed::new(Node { name: NOWHERE }),
            elements: Fixed::new(Element {
                name: NOWHERE,
                kind: Kind::Resistor,
                ends: Ends {
                    from: FIRST,
                    to: FIRST,
                },
                value: LEAST_VALUE,
            }),
            port: None,
            closed: false,
        }
    }

    // Takes what the line says, unless it has a fault.
    fn take(&mut self, line: &CutLine<'_>) -> Result<(), Fault>
        ensures { (fs : List SpanIs) → CutInto line.now fs →
            MatchResult result
            (λ _. Least (FaultOf line.now fs self.old) None × Taken line.now.text.now fs line.now.kind self.old self.new)
            (λ f. Least (FaultOf line.now fs self.old) (Some f)) }
    {
        let fields = line.fields;
        let plain = line.plain_fault(self.elements.as_slice(), self.port.is_some());
        let value = line.value();
        let ends = line.ends(&mut self.nodes);
        if let Some(fault) = sooner(plain, sooner(value.err(), ends.err())) {
            return Err(fault);
        }
        // no fault is left, so both are there
        let value = value.unwrap();
        let ends = ends.unwrap();
        match line.kind {
            LineKind::Part(kind) => self
                .elements
                .push(Element {
                    name: fields[0],
                    kind,
                    ends: ends.unwrap(),
                    value: value.unwrap(),
                })
                .unwrap(),
            LineKind::Port => {
                self.port = Some(PortRecord {
                    name: fields[0],
                    ends: ends.unwrap(),
                });
            }
            LineKind::Close => self.closed = true,
            LineKind::Passed | LineKind::Strange => {}
        }
        Ok(())
    }

    // Reads the line that starts here, and says where the next one starts.
    fn read_line(&mut self, text: &[u8], start: usize) -> Result<usize, Fault>
        requires inside { start < length text.now }
        requires small { length text.now ≤ largest_text }
        requires before { Sofar text.now start self.old }
        ensures { MatchResult result (λ q. (start < q) × Sofar text.now q self.new) (Refuses text.now) }
    {
        let end = line_end(text, start);
        let span = Span {
            place: start,
            len: end - start,
        };
        let found = fields_of(text, span);
        let fields = found.as_slice();
        let kind = standing_as(start, self.closed, line_kind(text, fields));
        self.take(&CutLine {
            text,
            span,
            fields,
            kind,
        })?;
        Ok((end + 1).min(text.len()))
    }

    // The records, when all lines are read.
    fn finish(self, text: &[u8]) -> Result<Listing, Fault>
        requires some { 0 < length text.now }
        requires small { length text.now ≤ largest_text }
        requires all { Sofar text.now (length text.now) self }
        ensures { MatchResult result (Reads text.now) (Refuses text.now) }
    {
        let Reading {
            nodes,
            elements,
            port,
            closed,
        } = self;
        let wanting = Rule::Wanting.at(text.len());
        let Some(port) = port else {
            return Err(wanting);
        };
        if !closed || elements.as_slice().is_empty() {
            return Err(wanting);
        }
        Ok(Listing {
            nodes,
            elements,
            port,
        })
    }
}

// Reads a whole text: its records, or its first fault.
pub fn read(text: &[u8]) -> Result<Listing, Fault>
    ensures answer { MatchResult result (Reads text.now) (Refuses text.now) }
    ensures only { Only text.now result }
{
    if text.is_empty() || text.len() > LARGEST_TEXT {
        return Err(Rule::Size.at(0));
    }
    let mut reading = Reading::new();
    let mut start = 0;
    // Kept: an iterator over the lines would carry the same place from turn to turn.
    while start < text.len() {
        start = reading.read_line(text, start)?;
    }
    reading.finish(text)
}
