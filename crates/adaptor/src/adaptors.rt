ghost use Rattle.std.specs.Prelude.{◌≡◌, ◌+◌, ◌^◌, ◌≤◌, ℤ, pos, ◌+ℤ◌};
ghost use Rattle.adaptor.specs.Joints.{fits};
ghost use Rattle.adaptor.specs.Adaptors.{adaptor_reads, nonzero, Takes, Clears};
ghost use Rattle.adaptor.specs.Joins.{Joins};
ghost use Rattle.adaptor.specs.Adapted.{adaptor_sound, adaptor_fall, adaptor_cleared};

use crate::joints::{JoinRefusal, Joint};
use crate::ways::Way;
use port::{Part, Port, Taken};
use wave::{Ratio, Wave};

/// Two ports, and the joint that was made for them. A joint that does not fit its ports, which no join makes, lets nothing through.
#[derive(Debug, Drop)]
pub struct Adaptor<P, Q> {
    joint: Joint,
    left: P,
    right: Q,
}

/// Two ports that were not joined.
#[derive(Debug, Drop)]
pub struct Apart<P, Q> {
    pub left: P,
    pub right: Q,
    pub refusal: JoinRefusal,
}

// What an adaptor answers to f that lets nothing through.
fn idle(f: Wave) -> Taken
    ensures { (result.absorbed ≡ 0) × (result.shortened ≡ nonzero f.value) × (result.heard ≡ pos 0) }
{
    Taken {
        absorbed: 0,
        shortened: u32::from(f != Wave::ZERO),
        heard: 0,
    }
}

impl<P: Port, Q: Port> Adaptor<P, Q> {
    /// The two in series or in parallel.
    // Kept: a refusal hands both ports back, so it is not passed on by `?`.
    pub fn new(way: Way, left: P, right: Q) -> Result<Adaptor<P, Q>, Apart<P, Q>>
        ensures { Joins way P.Port Q.Port left right result }
    {
        match Joint::new(way, Part::of(&left), Part::of(&right)) {
            Ok(joint) => Ok(Adaptor { joint, left, right }),
            Err(refusal) => Err(Apart {
                left,
                right,
                refusal,
            }),
        }
    }

    // Kept: a rule of the project: that a joint is its ports' own is compared at each use, it is no invariant.
    fn fits(&self) -> bool
        ensures { result ≡ fits self.now.joint (P.Port.reads self.now.left) (Q.Port.reads self.now.right) }
    {
        self.joint.fits(&self.left, &self.right)
    }
}

impl<P: Port, Q: Port> Port for Adaptor<P, Q> {
    ghost reads = { λ s. adaptor_reads s.joint (P.Port.reads s.left) (Q.Port.reads s.right) };

    ghost takes = { λ s f t z. Takes P.Port Q.Port s.joint s.left s.right f t z.joint z.left z.right };

    ghost clears = { λ s e z. Clears P.Port Q.Port s.joint s.left s.right e z.joint z.left z.right };

    ghost lawful = { let L = P.Port.lawful in
        let M = Q.Port.lawful in
        record {
          sound = λ s. adaptor_sound L M s.joint s.left s.right;
          fall = λ s f t z h. adaptor_fall L M s.joint s.left s.right f t z.joint z.left z.right h;
          cleared = λ s e z h. adaptor_cleared L M s.joint s.left s.right e z.joint z.left z.right h;
        } };

    fn ratio(&self) -> Ratio {
        self.joint.ratio()
    }

    fn size(&self) -> u32 {
        self.joint.size()
    }

    fn ears(&self) -> u32 {
        self.joint.ears()
    }

    fn rising(&self) -> Wave {
        if self.fits() {
            self.joint
                .rising(self.left.rising(), self.right.rising())
                .wave
        } else {
            Wave::ZERO
        }
    }

    fn stored(&self) -> u64 {
        if self.fits() {
            self.left.stored() + self.right.stored()
        } else {
            0
        }
    }

    fn take(&mut self, f: i32) -> Taken {
        let f = Wave::hold(f);
        if self.fits() {
            let round = self.joint.round(f, self.left.rising(), self.right.rising());
            let x = self.left.take(round.left.wave.get());
            let y = self.right.take(round.right.wave.get());
            round.gathered(x, y)
        } else {
            idle(f)
        }
    }

    fn clear(&mut self) -> u64 {
        if self.fits() {
            self.left.clear() + self.right.clear()
        } else {
            0
        }
    }
}
