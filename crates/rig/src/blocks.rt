ghost use Rattle.std.specs.Prelude.{◌≡◌, slice_index, MatchResult};
ghost use Rattle.pcm.specs.Samples.{sample_wave};
ghost use Rattle.rig.specs.Steps.{Ready};
ghost use Rattle.rig.specs.Blocks.{Blockable, Unblocked, Blocked, Passed};

use crate::pages::PAGE_LENGTH;
use crate::parts::Rig;
use crate::refusals::Refusal;
use closing::meaning::Closing;
use pcm::{bytes_of, wave_of};
use port::meaning::Port;

impl<P: Port, C: Closing> Rig<P, C> {
    // Whether a block from `input` into `output` is accepted.
    fn block_ready(&self, input: &[u8], output: &[u8]) -> Result<(), Refusal>
        ensures { MatchResult result (λ _. Blockable self.now input.now output.now) (λ why. Unblocked self.now input.now output.now why) }
    {
        if self.raised {
            return Err(Refusal::WaveOpen);
        }
        if input.len() / 2 > (PAGE_LENGTH - self.tally.entries) as usize {
            return Err(Refusal::PageFull);
        }
        if input.len() % 2 == 1 || output.len() < input.len() {
            return Err(Refusal::BlockLength);
        }
        Ok(())
    }

    // One sample of a block.
    fn pass(&mut self, sample: [u8; 2]) -> [u8; 2]
        requires { Ready self.old }
        ensures { Passed P.Port C.Closing self.old (sample_wave (slice_index sample 0) (slice_index sample 1)) result self.new }
    {
        let round = self.feed(wave_of(sample)).unwrap();
        bytes_of(round.heard)
    }

    /// Feeds the samples of `input`, each a signed number of 16 bits with its low byte first, and writes what is heard into the front of `output`.
    pub fn block(&mut self, input: &[u8], output: &mut [u8]) -> Result<(), Refusal>
        ensures { Blocked P.Port C.Closing self.old input.now output.old result self.new output.new }
    {
        self.block_ready(input, output)?;
        let (samples, _) = input.as_chunks();
        for (i, sample) in samples.iter().enumerate() {
            let heard = self.pass(*sample);
            // Kept: the index, since the library does not say what a slice holds after the chunks of `as_chunks_mut` were written.
            output[2 * i..2 * i + 2].copy_from_slice(&heard);
        }
        Ok(())
    }
}
