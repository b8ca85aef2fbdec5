mod state;

ghost use Rattle.std.specs.Prelude.{◌≡◌, ℕ, [], ◌∷◌, ℤ, None};
ghost use Rattle.rig.specs.Energy.{Made, Promises};
ghost use Rattle.session.specs.Sessions.{Finished};
ghost use Rattle.stream.specs.Pieces.{Pieced, Halves, heard_of, pages_of, WhateverTheCuts};

use closing::Closing;
use pcm::{bytes_of, wave_of};
use port::Port;
use rig::Page;
use session::Session;
pub use state::{Heard, Stream};

impl<P: Port, C: Closing> Stream<P, C> {
    /// A stream through a new rig, with what the rig promises of every list of calls; and pieces a, then b, give what a and b together give.
    pub fn new(port: P, closing: C, number: u32) -> Stream<P, C>
        ensures made { Made P.Port port closing number result.session.rig × (result.low ≡ None) }
        ensures promises { Promises P.Port C.Closing result.session.rig }
        ensures cuts { WhateverTheCuts {P = P} {C = C} P.Port C.Closing }
    {
        Stream {
            session: Session::new(port, closing, number),
            low: None,
        }
    }

    /// The port, to be read.
    pub fn port(&self) -> &P
        ensures { result.now ≡ self.now.session.rig.port }
    {
        self.session.port()
    }

    /// One byte more: it waits for the second of its sample, or it completes a sample, which is heard.
    pub fn push(&mut self, byte: u8) -> Option<Heard>
        ensures halves { Halves result self.old.low self.new.low }
        ensures piece { Pieced P.Port C.Closing self.old.session.rig self.old.low (byte ∷ []) (heard_of result) (pages_of result) self.new.session.rig self.new.low }
    {
        let Some(low) = self.low.take() else {
            self.low = Some(byte);
            return None;
        };
        let entry = self.session.feed(wave_of([low, byte])).unwrap();
        Some(Heard {
            bytes: bytes_of(entry.round.heard),
            page: entry.page,
        })
    }

    /// Turns the last page, if it has entries. A lone last byte is no sample.
    pub fn finish(&mut self) -> Option<Page>
        ensures what { Finished P.Port C.Closing self.old.session.rig result self.new.session.rig }
        ensures low { self.new.low ≡ self.old.low }
    {
        self.session.finish()
    }
}
