ghost use Rattle.std.specs.Prelude.{◌≡◌, ◌+◌, ◌<◌, IfOk, vec_len};

use crate::elements::Element;
use crate::trees::{Node, Tree};
use std::alloc::{AllocError, Global};

/// Spare boxes, made beforehand so that joining takes no memory: a join uses two, a tree of n elements 2 n - 2.
#[derive(Drop)]
pub struct Room {
    pub(crate) boxes: Vec<Box<Tree>>,
}

impl Room {
    /// Room for n boxes: the one call that takes memory.
    pub fn new(heap: Global, n: usize) -> Result<Room, AllocError>
        ensures { IfOk result (λ s. vec_len s.boxes ≡ n) }
    {
        let mut boxes = Vec::new(heap);
        for _ in 0..n {
            let node = Node::Leaf(Element::built_in());
            boxes.push(Box::new(heap, Tree { node })?)?;
        }
        Ok(Room { boxes })
    }

    /// How many boxes are left.
    pub fn left(&self) -> usize
        ensures { result ≡ vec_len self.now.boxes }
    {
        self.boxes.len()
    }

    // The tree, in a spare box.
    pub(crate) fn put(&mut self, tree: Tree) -> Box<Tree>
        requires { 0 < vec_len self.old.boxes }
        ensures value { result.value ≡ tree }
        ensures left { vec_len self.new.boxes + 1 ≡ vec_len self.old.boxes }
    {
        let mut spare = self.boxes.pop().unwrap();
        *spare = tree;
        spare
    }
}
