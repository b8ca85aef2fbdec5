ghost use Rattle.std.specs.Prelude.{◌≡◌, ℕ, ◌+◌, ◌*◌, ◌<◌, ◌≤◌, length, vec_len, MatchOption, MatchResult};
ghost use Rattle.tree.specs.Models.{Model as ModelIs};
ghost use Rattle.net.specs.Choices.{Stuck, chosen_pair};
ghost use Rattle.net.specs.Reductions.{Steps, EndsOver, Whole, wires};
ghost use Rattle.assembly.specs.Limits.{most_branches};
ghost use Rattle.assembly.specs.Branches.{edges, way_for, Joins, Refused};
ghost use Rattle.assembly.specs.Beginnings.{Begins, Unweighable};
ghost use Rattle.assembly.specs.Inner.{ends_after_join, Fit, Replaced, Halted, GrownFrom, Ungrown};
ghost use Rattle.assembly.specs.declared.faults.AssemblyFault.TheVariants.{BadWeight, TooLarge};

use crate::branches::{Branch, wire_of};
use crate::faults::AssemblyFault;
use crate::leaves::leaf_of;
use crate::spaces::Workspace;
use adaptor::Way;
use net::{Choice, Wire, choose};
use reader::Element;
use tree::{ListingTree, Room};
use weights::Scale;

// The branches that are left of a listing, and the room for the joins that may come: two boxes for each.
#[derive(Drop)]
pub(crate) struct Forest {
    room: Room,
    branches: Vec<Branch>,
    ghost spare: { 2 * vec_len branches ≤ vec_len room.boxes + 2 },
    ghost fit: { Fit (edges branches.items) },
}

// Kept: a `Choice` is net's and a `Way` is adaptor's, so this can be no `From` and no method.
fn way_of(choice: Choice) -> Way
    ensures { result ≡ way_for choice }
{
    match choice {
        Choice::Twins(_) => Way::Parallel,
        Choice::Chain(_, _) => Way::Series,
    }
}

// The ends of what two branches become.
// Kept: a `Choice` is net's, so this can be no method.
fn joined_ends(choice: Choice, low: Wire, high: Wire) -> Wire
    ensures { result ≡ ends_after_join choice low high }
{
    match choice {
        Choice::Twins(_) => low,
        Choice::Chain(_, node) => Wire {
            from: low.far(node),
            to: high.far(node),
        },
    }
}

impl Forest {
    // All elements as branches; refused by the place of the first name whose element has no weight.
    pub(crate) fn begin(
        elements: &[Element],
        ear: Option<usize>,
        scale: Scale,
        space: Workspace,
    ) -> Result<Forest, AssemblyFault>
        requires { length elements.now ≤ most_branches }
        ensures { MatchResult result
            (λ s. Begins scale.rate scale.unit ear elements.now (edges s.branches.items))
            (λ f. (p : ℕ) × (f ≡ BadWeight p) × Unweighable scale.rate scale.unit elements.now p) }
    {
        let Workspace { room, mut branches } = space;
        for (index, element) in elements.iter().enumerate() {
            let bad = AssemblyFault::BadWeight(element.name.place);
            let leaf = leaf_of(element, index as u32, ear == Some(index), scale).ok_or(bad)?;
            branches.push_reserved(Branch {
                tree: ListingTree::leaf(leaf),
                wire: wire_of(element.ends),
                place: element.name.place,
            });
        }
        Ok(Forest { room, branches })
    }

    // Joins the two branches of a choice: the lower one becomes both, where it stands. Refused by the place of the lower one.
    fn join_at(&mut self, choice: Choice) -> Result<(), AssemblyFault>
        requires order { (chosen_pair choice).low < (chosen_pair choice).high }
        requires within { (chosen_pair choice).high < vec_len self.old.branches }
        ensures joined { MatchResult result
            (λ _. Replaced choice (edges self.old.branches.items) (edges self.new.branches.items))
            (λ f. (p : ℕ) × (f ≡ TooLarge p) × Halted choice (edges self.old.branches.items) p) }
        ensures fewer { vec_len self.new.branches < vec_len self.old.branches }
    {
        let pair = choice.pair();
        let b = self.branches.remove(pair.high);
        let a = self.branches.remove(pair.low);
        let place = a.place;
        let wire = joined_ends(choice, a.wire, b.wire);
        let tree = ListingTree::join(way_of(choice), a.tree, b.tree, &mut self.room).map_err(
            |_| AssemblyFault::TooLarge(place),
        )?;
        self.branches
            .insert(pair.low, Branch { tree, wire, place })
            .unwrap();
        Ok(())
    }

    // Joins two branches at a time until no two can be. Refused by the place of the lower of two that make too large a number.
    fn reduce(&mut self, port: Wire) -> Result<(), AssemblyFault>
        ensures { MatchResult result
            (λ _. Steps Joins Refused port (edges self.old.branches.items) (edges self.new.branches.items)
            × Stuck (wires (edges self.new.branches.items)) port)
            (λ f. (p : ℕ) × (f ≡ TooLarge p) × EndsOver Joins Refused port (edges self.old.branches.items) p) }
    {
        while let Some(choice) = choose(self.branches.as_slice(), port) {
            self.join_at(choice)?;
        }
        Ok(())
    }

    // The tree of the one branch that is left between the ends of the port, if it is so.
    fn last(self, port: Wire) -> Option<ListingTree>
        ensures { MatchOption result
            ((m : ModelIs) → Whole Joins Refused port (edges self.branches.items) m → ⊥)
            (λ t. Whole Joins Refused port (edges self.branches.items) t.tree) }
    {
        let Forest { mut branches, .. } = self;
        let Branch { tree, wire, .. } = branches.pop()?;
        (branches.is_empty() && wire.same_ends(port)).then_some(tree)
    }
}

// The tree that the elements come down to.
// Kept: elements, ear and scale go together in this call and the one of `begin` only; a struct made for one call is no plainer.
pub(crate) fn tree_of(
    elements: &[Element],
    port: Wire,
    ear: Option<usize>,
    scale: Scale,
    space: Workspace,
) -> Result<ListingTree, AssemblyFault>
    requires { length elements.now ≤ most_branches }
    ensures { MatchResult result
        (λ t. GrownFrom scale.rate scale.unit ear elements.now port t.tree)
        (λ f. Ungrown scale.rate scale.unit ear elements.now port f) }
{
    let mut forest = Forest::begin(elements, ear, scale, space)?;
    forest.reduce(port)?;
    forest.last(port).ok_or(AssemblyFault::Irreducible)
}
