//! Two ports behind one: in series and in parallel.
#![tactic(auto)]

pub mod adaptors;
pub mod joints;
pub mod ways;

pub use adaptors::{Adaptor, Apart};
pub use joints::{JoinRefusal, Joint, Round};
pub use ways::Way;

// Joining is of the second layer of all that may refuse.
const LAYER: u32 = 2;
