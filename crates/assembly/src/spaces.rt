ghost use Rattle.std.specs.Prelude.{◌≡◌, ◌≤◌, IfOk, vec_len, vec_capacity};
ghost use Rattle.assembly.specs.Limits.{most_branches, most_boxes};

use crate::branches::Branch;
use reader::MOST_ELEMENTS;
use std::alloc::{AllocError, Global};
use tree::Room;

// The most branches of a listing, one for each element, and the boxes that all joins of them take.
const MOST_BRANCHES: usize = MOST_ELEMENTS;

const MOST_BOXES: usize = 2 * MOST_BRANCHES - 2;

/// The memory that one assembling needs, made beforehand.
#[derive(Drop)]
pub struct Workspace {
    pub(crate) room: Room,
    pub(crate) branches: Vec<Branch>,
    ghost boxes: { most_boxes ≤ vec_len room.boxes },
    ghost places: { most_branches ≤ vec_capacity branches },
    ghost free: { vec_len branches ≡ 0 },
}

impl Workspace {
    /// The one call of assembling that takes memory: as many boxes as the joins of the longest listing use, and places for as many branches.
    pub fn new(heap: Global) -> Result<Workspace, AllocError>
        ensures boxes { IfOk result (λ w. vec_len w.room.boxes ≡ most_boxes) }
        ensures places { IfOk result (λ w. vec_capacity w.branches ≡ most_branches) }
        ensures free { IfOk result (λ w. vec_len w.branches ≡ 0) }
    {
        let room = Room::new(heap, MOST_BOXES)?;
        let branches = Vec::with_capacity(heap, MOST_BRANCHES)?;
        Ok(Workspace { room, branches })
    }
}
