ghost use Rattle.std.specs.Prelude.{◌≡◌, ◌+◌, ◌≤◌, vec_len, MatchResult};
ghost use Rattle.adaptor.specs.Joins.{Joined};
ghost use Rattle.tree.specs.Models.{leaf, reads};
ghost use Rattle.tree.specs.Ears.{HeardAbsorbs};
ghost use Rattle.tree.specs.Growth.{Grown, Ungrown, BuiltTree};
ghost use Rattle.tree.specs.declared.grown.Refusal.TheVariants.{NoJoint};

use crate::elements::Element;
use crate::listed::ListingTree;
use crate::rooms::Room;
use crate::trees::{Knot, Node, Tree};
use adaptor::{JoinRefusal, Joint, Way};
use port::{Part, Port};

/// Why two trees are not joined.
#[derive(Clone, Copy, Debug, PartialEq, Eq)]
pub enum Refusal {
    /// Fewer than two boxes are left in the room.
    NoRoom,
    /// No joint was made for them.
    NoJoint(JoinRefusal),
}

/// Two trees that were not joined.
// Kept: a refused join hands both trees back; the adaptor's `Apart` knows its own refusals alone, and these may also lack room.
#[derive(Drop)]
pub struct Apart {
    pub left: ListingTree,
    pub right: ListingTree,
    pub refusal: Refusal,
}

impl From<JoinRefusal> for Refusal {
    ghost from_gives = { λ e r. r ≡ NoJoint e };

    fn from(refusal: JoinRefusal) -> Refusal {
        Refusal::NoJoint(refusal)
    }
}

// The joint of the two, where the room has boxes for them.
fn joint_of(
    way: Way,
    left: &ListingTree,
    right: &ListingTree,
    room: &Room,
) -> Result<Joint, Refusal>
    ensures { MatchResult result
        (λ j. Joined way (reads left.now.tree) (reads right.now.tree) j × (2 ≤ vec_len room.now.boxes))
        (Ungrown way left.now.tree right.now.tree (vec_len room.now.boxes)) }
{
    if room.left() < 2 {
        return Err(Refusal::NoRoom);
    }
    Ok(Joint::new(way, Part::of(left), Part::of(right))?)
}

impl ListingTree {
    /// The tree of one element.
    pub fn leaf(element: Element) -> ListingTree
        ensures tree { result.tree ≡ leaf element }
        ensures heard { HeardAbsorbs }
    {
        ListingTree {
            tree: Tree {
                node: Node::Leaf(element),
            },
        }
    }

    /// A tree to begin with: a resistor of weight 1 without an ear.
    pub fn built_in() -> ListingTree
        ensures { BuiltTree result.tree }
    {
        ListingTree::leaf(Element::built_in())
    }

    /// The two joined in the given way, or both back. It takes two boxes of the room, and no other memory.
    pub fn join(
        way: Way,
        left: ListingTree,
        right: ListingTree,
        room: &mut Room,
    ) -> Result<ListingTree, Apart>
        ensures { MatchResult result (λ t. Grown way left.tree right.tree t.tree × (vec_len room.new.boxes + 2 ≡ vec_len room.old.boxes))
            (λ a. (a.left ≡ left) × (a.right ≡ right) × (room.new ≡ room.old) × Ungrown way left.tree right.tree (vec_len room.old.boxes) a.refusal) }
    {
        let joint = match joint_of(way, &left, &right, room) {
            Ok(joint) => joint,
            Err(refusal) => {
                return Err(Apart {
                    left,
                    right,
                    refusal,
                });
            }
        };
        let knot = Knot {
            joint,
            left: left.rising(),
            right: right.rising(),
        };
        let a = room.put(left.tree);
        let b = room.put(right.tree);
        let node = Node::Join(knot, a, b);
        Ok(ListingTree {
            tree: Tree { node },
        })
    }
}
