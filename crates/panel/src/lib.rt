//! A panel's filter: a listing tree behind a closing, with all that the rig promises, and the tail that dies.
#![tactic(auto)]

ghost use Rattle.std.specs.Prelude.{◌≡◌, ℕ, ℤ, None, codes, IfOk, MatchResult};
ghost use Rattle.closing.specs.Meaning.{Bounded};
ghost use Rattle.rig.specs.Energy.{Made, Promises};
ghost use Rattle.stream.specs.Pieces.{WhateverTheCuts};
ghost use Rattle.assembly.specs.Assemblies.{Accepts, Refuses};
ghost use Rattle.panel.specs.Panels.{source_weight, panel_rate, panel_unit};
ghost use Rattle.panel.specs.Tails.{tree_port, TailDies};

use assembly::{Assembled, AssemblyFault, Workspace, assemble};
use closing::{Closing, Source};
use std::alloc::{AllocError, Global};
use stream::Stream;
use tree::ListingTree;

/// A stream through the tree of a listing. Over a bounded closing its tail dies: in silence the rounds in which anything is heard number at most the
/// energy stored when the silence began.
pub fn listen<C: Closing>(tree: ListingTree, closing: C) -> Stream<ListingTree, C>
    ensures made { Made tree_port tree closing 0 result.session.rig × (result.low ≡ None) }
    ensures promises { Promises tree_port C.Closing result.session.rig }
    ensures tails { (offers : C → ℤ → ℕ) → Bounded C.Closing.answers offers → TailDies C.Closing result.session.rig }
    ensures cuts { WhateverTheCuts {P = ListingTree} {C = C} tree_port C.Closing }
{
    Stream::new(tree, closing, 0)
}

/// The weight of the source before a panel's line.
pub const SOURCE_WEIGHT: u32 = 166;

/// The source before a panel's line.
pub fn source() -> Source
    ensures { result.weight.value ≡ source_weight }
{
    Source::new(SOURCE_WEIGHT).unwrap()
}

/// The rate of a panel's samples, in hertz.
pub const RATE: u32 = 16000;

/// The unit of a panel's weights, in nanosiemens.
pub const UNIT: u32 = 10000;

/// Writes the tree of a listing into the place, with the panel's rate and unit and the ear on the resistor `R1`; a refusal leaves the place as it was.
pub fn prepare(
    text: &[u8],
    space: Workspace,
    place: &mut ListingTree,
) -> Result<Assembled, AssemblyFault>
    ensures { MatchResult result
        (λ a. Accepts text.now panel_rate panel_unit (codes "R1") place.new.tree a)
        (λ f. Refuses text.now panel_rate panel_unit (codes "R1") f × (place.new ≡ place.old)) }
{
    assemble(text, RATE, UNIT, b"R1", space, place)
}

/// The tree of a listing, with the panel's rate and unit and the ear on the resistor `R1`, and what is known of it; or why there is none.
pub fn tree_of(
    heap: Global,
    text: &[u8],
) -> Result<Result<(ListingTree, Assembled), AssemblyFault>, AllocError>
    ensures { IfOk result (λ made. MatchResult made
        (λ x. Accepts text.now panel_rate panel_unit (codes "R1") x.0.tree x.1)
        (λ f. Refuses text.now panel_rate panel_unit (codes "R1") f)) }
{
    let mut tree = ListingTree::built_in();
    // Kept: with `map` the tree would have to move into a closure.
    Ok(match prepare(text, Workspace::new(heap)?, &mut tree) {
        Ok(made) => Ok((tree, made)),
        Err(fault) => Err(fault),
    })
}
