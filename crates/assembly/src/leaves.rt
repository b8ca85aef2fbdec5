ghost use Rattle.std.specs.Prelude.{◌≡◌, MatchOption, MatchResult};
ghost use Rattle.wave.specs.Refusals.{NoWeight};
ghost use Rattle.assembly.specs.Beginnings.{BodyIs, weight_of_element, Outside, EarIs};
ghost use Rattle.assembly.specs.Inner.{LeafIs};

use names::find;
use port::{Resistor, Storage, StorageKind};
use reader::Element;
use tree::{Body, Element as Leaf};
use values::Kind;
use wave::WeightRefusal;
use weights::Scale;

fn body_of(kind: Kind, weight: u32, ear: bool) -> Result<Body, WeightRefusal>
    ensures { MatchResult result (λ b. BodyIs kind weight ear b) (λ w. NoWeight weight w) }
{
    Ok(match kind {
        Kind::Resistor => Body::Resist(Resistor::new(weight, ear)?),
        Kind::Capacitor => Body::Store(Storage::new(StorageKind::Capacitor, weight)?),
        Kind::Coil => Body::Store(Storage::new(StorageKind::Coil, weight)?),
    })
}

// An element as a leaf at rest, none where its weight is outside.
pub(crate) fn leaf_of(element: &Element, index: u32, ear: bool, scale: Scale) -> Option<Leaf>
    ensures { MatchOption result
        (Outside (weight_of_element scale.rate scale.unit element.now))
        (LeafIs scale.rate scale.unit index ear element.now) }
{
    let weight = u32::try_from(scale.weight_of(element.kind, element.value)).ok()?;
    let body = body_of(element.kind, weight, ear).ok()?;
    Some(Leaf { index, body })
}

// Which element has the ear.
pub(crate) fn ear_of(text: &[u8], elements: &[Element], name: &[u8]) -> Option<usize>
    ensures { EarIs text.now elements.now name.now result }
{
    if name.is_empty() {
        return None;
    }
    let index = find(elements, text, name)?;
    match elements[index].kind {
        Kind::Resistor => Some(index),
        Kind::Capacitor | Kind::Coil => None,
    }
}
