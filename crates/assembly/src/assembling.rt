ghost use Rattle.std.specs.Prelude.{◌≡◌, MatchResult};
ghost use Rattle.assembly.specs.Assemblies.{Accepts, Refuses, OneEnd};

use crate::branches::wire_of;
use crate::faults::AssemblyFault;
use crate::forests::tree_of;
use crate::leaves::ear_of;
use crate::spaces::Workspace;
use port::Port;
use reader::read;
use tree::ListingTree;
use weights::Scale;

/// What is known of a tree that was assembled: its ratio and how many elements it has.
// Kept: assembling answers plain numbers, and no types of the layers below.
#[derive(Clone, Copy)]
pub struct Assembled {
    pub num: u32,
    pub den: u32,
    pub elements: u32,
}

/// Writes the tree of the listing into the place, at rest, and answers its numbers. The rate is in hertz, the unit in nanosiemens; `ear` is the
/// name of the resistor with the ear, empty for none. A refusal leaves the place as it was.
// Kept: rate and unit come as plain numbers, since a caller may hand any, and those of no `Scale` are refused here.
pub fn assemble(
    text: &[u8],
    rate: u32,
    unit: u32,
    ear: &[u8],
    space: Workspace,
    place: &mut ListingTree,
) -> Result<Assembled, AssemblyFault>
    ensures answer { MatchResult result
        (λ a. Accepts text.now rate unit ear.now place.new.tree a)
        (λ f. Refuses text.now rate unit ear.now f × (place.new ≡ place.old)) }
    ensures only { OneEnd }
{
    let listing = read(text)?;
    let scale = Scale::new(rate, unit).ok_or(AssemblyFault::OutOfRange)?;
    let elements = listing.elements.as_slice();
    let at = ear_of(text, elements, ear);
    let tree = tree_of(elements, wire_of(listing.port.ends), at, scale, space)?;
    if at.is_none() && !ear.is_empty() {
        return Err(AssemblyFault::NoEar);
    }
    let ratio = tree.ratio();
    let assembled = Assembled {
        num: ratio.num(),
        den: ratio.den(),
        elements: tree.size(),
    };
    *place = tree;
    Ok(assembled)
}
