ghost use Rattle.std.specs.Prelude.{◌≡◌, true};
ghost use Rattle.tree.specs.Models.{fitted};

use crate::trees::Tree;

/// The tree of a listing: each joint was made for its two parts.
// Kept: a port's laws hold for every value of its type. A `Tree` is seen as a model, in which a joint may fit nothing, so it can be no port itself;
// this struct adds that all fit.
#[derive(Drop)]
pub struct ListingTree {
    pub(crate) tree: Tree,
    ghost fits: { fitted tree ≡ true },
}
