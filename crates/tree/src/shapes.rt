ghost use Rattle.std.specs.Prelude.{◌≡◌, ◌++◌, IfOk, OnOk};
ghost use Rattle.tree.specs.Shapes.{steps};

use crate::elements::Element;
use crate::listed::ListingTree;
use crate::trees::{Node, Tree};
use adaptor::Way;
use std::alloc::{AllocError, Global};

/// A step of reading a tree from left to right: each join stands in brackets, its way between its two parts.
#[derive(Clone, Copy, Debug, PartialEq, Eq)]
pub enum Step {
    Begin,
    One(Element),
    By(Way),
    End,
}

impl Tree {
    fn steps(&self, out: &mut Vec<Step>) -> Result<(), AllocError>
        ensures { OnOk result (out.new.items ≡ out.old.items ++ steps self.now) }
    {
        match &self.node {
            Node::Leaf(e) => out.push(Step::One(*e))?,
            Node::Join(k, a, b) => {
                out.push(Step::Begin)?;
                a.steps(out)?;
                out.push(Step::By(k.joint.way()))?;
                b.steps(out)?;
                out.push(Step::End)?;
            }
        }
        Ok(())
    }
}

impl ListingTree {
    /// Adds the tree's steps to `out`: its elements as they are now, and how they are joined.
    pub fn add_shape(&self, out: &mut Vec<Step>) -> Result<(), AllocError>
        ensures { OnOk result (out.new.items ≡ out.old.items ++ steps self.now.tree) }
    {
        self.tree.steps(out)
    }

    /// The tree's steps, in a list of their own.
    pub fn shape(&self, heap: Global) -> Result<Vec<Step>, AllocError>
        ensures { IfOk result (λ v. v.items ≡ steps self.now.tree) }
    {
        let mut out = Vec::new(heap);
        self.add_shape(&mut out)?;
        Ok(out)
    }
}
