mod turning;

ghost use Rattle.std.specs.Prelude.{◌≡◌, ℕ, false, ℤ};
ghost use Rattle.rig.specs.Energy.{Made, Promises};
ghost use Rattle.session.specs.Sessions.{Turned, Sounded, Dropped, Finished};

use closing::Closing;
use port::Port;
use rig::{PAGE_LENGTH, Page, Refusal, Rig};
pub use turning::{Entry, Session};

// Turns the page if it is full.
fn turn_full<P: Port, C: Closing>(rig: &mut Rig<P, C>) -> Option<Page>
    requires { rig.old.raised ≡ false }
    ensures { Turned P.Port rig.old result rig.new }
{
    // Kept: tried with `then`, here and in `finish`: the proof of the turn inside the closure, which borrows the rig, did not close.
    if rig.entries() < PAGE_LENGTH {
        return None;
    }
    Some(rig.turn().unwrap())
}

impl<P: Port, C: Closing> Session<P, C> {
    /// A session with a new rig. What the rig promises of every list of calls, the session's calls keep, since each is such a list.
    pub fn new(port: P, closing: C, number: u32) -> Session<P, C>
        ensures made { Made P.Port port closing number result.rig }
        ensures promises { Promises P.Port C.Closing result.rig }
    {
        Session {
            rig: Rig::new(port, closing, number),
        }
    }

    /// The port, to be read.
    pub fn port(&self) -> &P
        ensures { result.now ≡ self.now.rig.port }
    {
        self.rig.port()
    }

    /// A round at the sample e, and the page if that filled it. Refused only where e is beyond the largest wave.
    pub fn feed(&mut self, e: i32) -> Result<Entry, Refusal>
        ensures { Sounded P.Port C.Closing self.old.rig e result self.new.rig }
    {
        let round = self.rig.feed(e)?;
        let page = turn_full(&mut self.rig);
        Ok(Entry { round, page })
    }

    /// Clears the port: the energy dropped, and the page if that filled it.
    pub fn clear(&mut self) -> (u64, Option<Page>)
        ensures { Dropped P.Port C.Closing self.old.rig result.0 result.1 self.new.rig }
    {
        let dropped = self.rig.clear().unwrap();
        let page = turn_full(&mut self.rig);
        (dropped, page)
    }

    /// Turns the page if it has entries.
    pub fn finish(&mut self) -> Option<Page>
        ensures { Finished P.Port C.Closing self.old.rig result self.new.rig }
    {
        if self.rig.entries() == 0 {
            return None;
        }
        Some(self.rig.turn().unwrap())
    }
}
