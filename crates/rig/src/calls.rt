ghost use Rattle.std.specs.Prelude.{◌≡◌, ◌<◌, true, false, MatchResult};
ghost use Rattle.rig.specs.Limits.{page_length};
ghost use Rattle.rig.specs.Pages.{page_of};
ghost use Rattle.rig.specs.Steps.{Ready, Unready, Fits, Unwithdrawn, Rounded, Fed, Raised, Answered, Withdrawn, Cleared, Turned};
ghost use Rattle.rig.specs.Energy.{Made, Promises};

use crate::handed::HandedBack;
use crate::pages::{PAGE_LENGTH, Page, Round};
use crate::parts::{OpenWave, Rig, Tally};
use crate::refusals::Refusal;
use closing::meaning::Closing;
use port::meaning::Port;
use wave::waves::{LARGEST_WAVE, Wave};

impl OpenWave {
    /// The wave that rises from the rig's port.
    pub fn rising(&self) -> Wave
        ensures { result ≡ self.now.rising }
    {
        self.rising
    }
}

impl<P: Port, C: Closing> Rig<P, C> {
    /// A rig with no wave open and an empty page. What it promises of every list of calls from here on: rounding never makes energy; and over a
    /// bounded closing the energy stays within what was offered, and in silence the filter runs down.
    pub fn new(port: P, closing: C, number: u32) -> Rig<P, C>
        ensures made { Made P.Port port closing number result }
        ensures promises { Promises P.Port C.Closing result }
    {
        let tally = Tally::fresh(port.stored());
        Rig {
            port,
            closing,
            number,
            raised: false,
            tally,
        }
    }

    /// The port, to be read.
    pub fn port(&self) -> &P
        ensures { result.now ≡ self.now.port }
    {
        &self.port
    }

    /// How many entries the page has.
    pub fn entries(&self) -> u32
        ensures { result ≡ self.now.tally.entries }
    {
        self.tally.entries
    }

    /// The page so far.
    pub fn page(&self) -> Page
        ensures { result ≡ page_of self.now.tally (P.Port.reads self.now.port).stored }
    {
        self.tally.page(self.port.stored())
    }

    // The port takes `falling`, and the round is entered on the page.
    fn round(&mut self, rising: Wave, falling: Wave) -> Round
        requires { (rising.value ≡ (P.Port.reads self.old.port).rising) × (self.old.tally.entries < page_length) }
        ensures { Rounded P.Port self.old falling.value result self.new }
    {
        let taken = self.port.take(falling.get());
        let round = Round {
            rising,
            falling,
            absorbed: taken.absorbed,
            shortened: taken.shortened,
            heard: taken.heard,
        };
        self.tally = self.tally.counted(round);
        self.raised = false;
        round
    }

    // No wave is open, and the page has an entry left.
    fn ready(&self) -> Result<(), Refusal>
        ensures { MatchResult result (λ _. Ready self.now) (λ why. Unready self.now why) }
    {
        if self.raised {
            return Err(Refusal::WaveOpen);
        }
        if self.tally.entries >= PAGE_LENGTH {
            return Err(Refusal::PageFull);
        }
        Ok(())
    }

    /// A round at the sample e: the closing answers the port's rising wave, and the port takes that answer.
    pub fn feed(&mut self, e: i32) -> Result<Round, Refusal>
        ensures { Fed P.Port C.Closing self.old e result self.new }
    {
        if e.unsigned_abs() > LARGEST_WAVE {
            return Err(Refusal::Beyond);
        }
        self.ready()?;
        let rising = self.port.rising();
        let ratio = self.port.ratio();
        let falling = self.closing.answer(rising.get(), e, ratio);
        Ok(self.round(rising, falling))
    }

    /// Hands the rising wave out, to be answered or withdrawn.
    pub fn raise(&mut self) -> Result<OpenWave, Refusal>
        ensures { Raised P.Port self.old result self.new }
    {
        self.ready()?;
        self.raised = true;
        Ok(OpenWave {
            number: self.number,
            rising: self.port.rising(),
        })
    }

    // The rising wave, if `wave` is the one that is open; from here on it is no longer. Else it is handed back.
    fn spend(&self, wave: OpenWave) -> Result<Wave, HandedBack>
        ensures { MatchResult result (λ rising. Fits P.Port self.now wave × (rising ≡ wave.rising)) (λ back. (back.wave ≡ wave) × Unwithdrawn P.Port self.now wave back.refusal) }
    {
        if self.raised && wave.number == self.number && wave.rising == self.port.rising() {
            let OpenWave { number: _, rising } = wave;
            return Ok(rising);
        }
        Err(HandedBack {
            wave,
            refusal: Refusal::Misfit,
        })
    }

    /// A round with the caller's own falling wave f. A refused open wave is handed back.
    pub fn answer(&mut self, wave: OpenWave, f: i32) -> Result<Round, HandedBack>
        ensures { Answered P.Port self.old wave f result self.new }
    {
        if f.unsigned_abs() > LARGEST_WAVE {
            return Err(HandedBack {
                wave,
                refusal: Refusal::Beyond,
            });
        }
        let rising = self.spend(wave)?;
        Ok(self.round(rising, Wave::hold(f)))
    }

    /// Ends an open wave without a round. A refused open wave is handed back.
    pub fn withdraw(&mut self, wave: OpenWave) -> Result<(), HandedBack>
        ensures { Withdrawn P.Port self.old wave result self.new }
    {
        self.spend(wave)?;
        self.raised = false;
        Ok(())
    }

    /// Clears the port, and answers the energy that was dropped.
    pub fn clear(&mut self) -> Result<u64, Refusal>
        ensures { Cleared P.Port self.old result self.new }
    {
        self.ready()?;
        let dropped = self.port.clear();
        self.tally = self.tally.cleared(dropped);
        Ok(dropped)
    }

    /// Answers the page, and starts the next.
    pub fn turn(&mut self) -> Result<Page, Refusal>
        ensures { Turned P.Port self.old result self.new }
    {
        if self.raised {
            return Err(Refusal::WaveOpen);
        }
        let end = self.port.stored();
        let page = self.tally.page(end);
        self.tally = Tally::fresh(end);
        Ok(page)
    }
}
