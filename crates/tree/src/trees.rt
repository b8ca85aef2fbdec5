ghost use Rattle.std.specs.Prelude.{◌≡◌};
ghost use Rattle.tree.specs.Models.{reads, taken, answer, cleared};

use crate::elements::Element;
use adaptor::Joint;
use port::{Port, Taken};
use std::marker::Model;
use wave::{Ratio, Wave};

// A joint, and the waves that rise from its two parts.
#[derive(Clone, Copy)]
pub(crate) struct Knot {
    pub(crate) joint: Joint,
    pub(crate) left: Wave,
    pub(crate) right: Wave,
}

// Each joint was made for its two parts, and keeps the waves that rise from them.
#[cycle(tree)]
#[derive(Drop)]
pub(crate) struct Tree {
    pub(crate) node: Node,
}

// Kept: a leaf or a join is an enum, matched in each method; a `dyn Port` would need a box for each leaf, and joining takes no memory.
#[cycle(tree)]
#[derive(Drop)]
pub(crate) enum Node {
    Leaf(Element),
    Join(Knot, Box<Tree>, Box<Tree>),
}

impl Model for Tree {
    ghost use Rattle.tree.specs.Models.{Model as ModelIs};
    ghost use Rattle.tree.specs.Codes.{model_code};

    ghost Value = { ModelIs };

    ghost coded = { model_code };

    ghost use Rattle.tree.specs.Trees.{model, Holds};

    ghost view = { λ a. model a.node };

    ghost invariant = { λ a. Holds a.node };

    ghost use Rattle.tree.specs.Models.{joined};

    ghost size = { joined };

    ghost use Rattle.tree.specs.TreeFalls.{deeper};

    ghost size_decreases = { λ a h. deeper a.node };
}

// What a tree answers to a falling wave, and the wave that rises from it after that.
#[derive(Clone, Copy)]
pub(crate) struct Answer {
    pub(crate) taken: Taken,
    pub(crate) rising: Wave,
}

impl Tree {
    pub(crate) fn ratio(&self) -> Ratio
        ensures num { result.num ≡ (reads self.now).num }
        ensures den { result.den ≡ (reads self.now).den }
    {
        match &self.node {
            Node::Leaf(e) => e.ratio(),
            Node::Join(k, _, _) => k.joint.ratio(),
        }
    }

    pub(crate) fn size(&self) -> u32
        ensures { result ≡ (reads self.now).size }
    {
        match &self.node {
            Node::Leaf(e) => e.size(),
            Node::Join(k, _, _) => k.joint.size(),
        }
    }

    pub(crate) fn ears(&self) -> u32
        ensures { result ≡ (reads self.now).ears }
    {
        match &self.node {
            Node::Leaf(e) => e.ears(),
            Node::Join(k, _, _) => k.joint.ears(),
        }
    }

    pub(crate) fn rising(&self) -> Wave
        ensures { result.value ≡ (reads self.now).rising }
    {
        match &self.node {
            Node::Leaf(e) => e.rising(),
            Node::Join(k, _, _) => k.joint.rising(k.left, k.right).wave,
        }
    }

    pub(crate) fn stored(&self) -> u64
        ensures { result ≡ (reads self.now).stored }
    {
        match &self.node {
            Node::Leaf(e) => e.stored(),
            Node::Join(_, a, b) => a.stored() + b.stored(),
        }
    }

    // One pass down with the falling waves, one up with the answers and the rising waves.
    pub(crate) fn take(&mut self, f: i32) -> Answer
        ensures after { self.new ≡ taken self.old f }
        ensures raises { result.rising.value ≡ (reads (taken self.old f)).rising }
        ensures answers { result.taken ≡ answer self.old f }
    {
        match &mut self.node {
            Node::Leaf(e) => {
                let taken = e.take(f);
                let rising = e.rising();
                Answer { taken, rising }
            }
            Node::Join(k, a, b) => {
                let round = k.joint.round(Wave::hold(f), k.left, k.right);
                let x = a.take(round.left.wave.get());
                let y = b.take(round.right.wave.get());
                k.left = x.rising;
                k.right = y.rising;
                let taken = round.gathered(x.taken, y.taken);
                let rising = k.joint.rising(x.rising, y.rising).wave;
                Answer { taken, rising }
            }
        }
    }

    pub(crate) fn clear(&mut self) -> u64
        ensures after { self.new ≡ cleared self.old }
        ensures dropped { result ≡ (reads self.old).stored }
    {
        match &mut self.node {
            Node::Leaf(e) => e.clear(),
            Node::Join(k, a, b) => {
                let x = a.clear();
                let y = b.clear();
                k.left = Wave::ZERO;
                k.right = Wave::ZERO;
                x + y
            }
        }
    }
}
