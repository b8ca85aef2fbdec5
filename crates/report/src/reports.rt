ghost use Rattle.std.specs.Prelude.{◌≡◌, ◌+◌, ◌^◌, ◌<◌, ◌≤◌, length, codes, Some, IfOk, MatchResult};
ghost use Rattle.report.specs.Reports.{longest_recording, longest_silence, Longer, Spoken, Rested, Reported, Fair};

use crate::accounts::{Account, Weighing};
use closing::{BoundedClosing, Closing};
use pcm::wave_of;
use port::Port;
use rig::Round;
use session::Session;
use std::error::Error;
use std::fmt;
use wave::Ratio;

/// The most bytes of samples that a report takes: 2³¹.
pub const LONGEST_RECORDING: usize = 2147483648;

/// How many rounds of silence follow the samples at most.
pub const LONGEST_SILENCE: u32 = 1000000;

/// How many rounds in a row must neither shorten nor absorb anything for the filter to count as quiet.
pub const QUIET: u32 = 256;

/// The samples are more than `LONGEST_RECORDING` bytes.
#[derive(Clone, Copy, Debug, PartialEq, Eq)]
pub struct TooLong;

impl fmt::Display for TooLong {
    ghost output = { λ _. Some (codes "the recording is too long") };

    fn fmt<W: fmt::Write>(&self, f: &mut fmt::Formatter<W>) -> fmt::Result {
        write!(f, "the recording is too long")
    }
}

impl Error for TooLong {}

/// A stretch of feeds of 0: how many rounds, how many of them shortened or absorbed something, and how many passed since the last that did.
#[derive(Clone, Copy, Debug, Default, PartialEq, Eq)]
pub struct Silence {
    pub rounds: u32,
    pub busy: u32,
    pub idle: u32,
}

/// What became of a recording: the port's ratio and the energy at the start, the balance after the last sample, the silence after it, and the balance
/// after what was then left had been dropped.
#[derive(Clone, Copy, Debug, PartialEq, Eq)]
pub struct Report {
    pub ratio: Ratio,
    pub start: u64,
    pub spoken: Weighing,
    pub silence: Silence,
    pub ended: Weighing,
}

// Feeds the samples.
fn speak<P: Port, C: Closing>(session: &mut Session<P, C>, samples: &[u8]) -> Account
    requires { length samples.now ≤ longest_recording }
    ensures { Spoken P.Port C.Closing session.old.rig samples.now result session.new.rig }
{
    let mut account = Account::empty();
    let (pairs, _) = samples.as_chunks();
    for pair in pairs {
        let entry = session.feed(wave_of(*pair)).unwrap();
        account = account.counted(entry.round);
    }
    account
}

impl Silence {
    // One round of silence more.
    fn after(self, round: Round) -> Silence
        requires { (self.rounds + 1 < 2 ^ 32) × ((self.busy ≤ self.rounds) × (self.idle ≤ self.rounds)) }
        ensures { Longer self round result }
    {
        let busy = round.shortened > 0 || round.absorbed > 0;
        Silence {
            rounds: self.rounds + 1,
            busy: self.busy + u32::from(busy),
            idle: if busy { 0 } else { self.idle + 1 },
        }
    }
}

// Feeds silence until the filter is quiet, or the longest silence is over.
fn rest<P: Port, C: Closing>(session: &mut Session<P, C>, account: Account) -> (Silence, Account)
    requires { account.entries + longest_silence + 1 < 2 ^ 32 }
    ensures { Rested P.Port C.Closing session.old.rig account result.0 result.1 session.new.rig }
{
    let mut account = account;
    let mut silence = Silence::default();
    for _ in 0..LONGEST_SILENCE {
        let entry = session.feed(0).unwrap();
        account = account.counted(entry.round);
        silence = silence.after(entry.round);
        if silence.idle >= QUIET {
            break;
        }
    }
    (silence, account)
}

/// Makes a rig of the port and the closing, feeds it the samples of a recording, each a signed number of 16 bits with its low byte first, then
/// silence until it is quiet, and clears it. Both balances are fair: rounding made no energy. And the busy rounds of the silence number at most the
/// energy that was stored when it began.
pub fn report_on<P: Port + Drop, C: BoundedClosing + Drop>(
    port: P,
    closing: C,
    samples: &[u8],
) -> Result<Report, TooLong>
    ensures what { MatchResult result (λ x. (length samples.now ≤ longest_recording) × Reported P.Port C.Closing port closing samples.now x) (λ _. longest_recording < length samples.now) }
    ensures spoken { IfOk result (λ x. Fair x.spoken) }
    ensures ended { IfOk result (λ x. Fair x.ended) }
    ensures silence { IfOk result (λ x. x.silence.busy ≤ x.spoken.stored) }
{
    if samples.len() > LONGEST_RECORDING {
        return Err(TooLong);
    }
    let ratio = port.ratio();
    let start = port.stored();
    let mut session = Session::new(port, closing, 0);
    let account = speak(&mut session, samples);
    let spoken = account.weighed(ratio, start, session.port().stored());
    let (silence, account) = rest(&mut session, account);
    let (dropped, _) = session.clear();
    let ended = account
        .cleared(dropped)
        .weighed(ratio, start, session.port().stored());
    Ok(Report {
        ratio,
        start,
        spoken,
        silence,
        ended,
    })
}

#[cfg(test)]
mod tests {
    use super::TooLong;
    use std::test::Fail;

    #[test]
    fn says_that_it_is_too_long(rt: HostRuntime) -> Result<(), Fail> {
        let refusal = TooLong;
        let line = format!(in rt.alloc(); "{refusal}")?;
        assert_eq!(rt; line.as_str(), "the recording is too long");
        Ok(())
    }
}
