//! A rig tried on examples: open waves of its own and of others, refusals in every order, pages, blocks. The expected values come from the equations,
//! worked by hand, and from a separate model in exact fractions.
#![tactic(auto)]

ghost use Rattle.std.specs.Prelude.{◌≡◌, ◌≤◌, true, false, pos, ◌≢◌};
ghost use Rattle.wave.specs.Numbers.{largest_wave};
ghost use Rattle.rig.specs.Steps.{Fits, Kept};

use closing::Closing;
use port::{Port, Resistor};
use rig::{HandedBack, OpenWave, Refusal, Rig};
use told::Tells;

/// The number of a refusal, or 0.
fn number<T: Drop>(answer: Result<T, Refusal>) -> u32 {
    answer.err().map_or(0, |why| why.told().number)
}

/// What calls answer while a wave is open: a feed of `far`, a feed of 1, a raise, a clear and a turn. All are refused.
fn while_open<P: Port, C: Closing>(rig: &mut Rig<P, C>, far: i32) -> [u32; 5]
    requires { rig.old.raised ≡ true }
    ensures { rig.new ≡ rig.old }
{
    let refusals = [
        rig.feed(far).unwrap_err(),
        rig.feed(1).unwrap_err(),
        rig.raise().unwrap_err(),
        rig.clear().unwrap_err(),
        rig.turn().unwrap_err(),
    ];
    refusals.map(|why| why.told().number)
}

/// Ends a wave that fits.
fn settle<P: Port, C: Closing>(rig: &mut Rig<P, C>, wave: OpenWave)
    requires { Fits P.Port rig.old wave }
    ensures { (rig.new.raised ≡ false) × (Kept rig.old rig.new) }
{
    rig.withdraw(wave).unwrap();
}

/// What a rig answers to a wave of another number: it is handed back by both calls, and nothing changes.
fn foreign<P: Port, C: Closing>(rig: &mut Rig<P, C>, wave: OpenWave, f: i32) -> (OpenWave, u32, u32)
    requires { wave.number ≢ rig.old.number }
    ensures { (result.0 ≡ wave) × (rig.new ≡ rig.old) }
{
    let HandedBack { wave, refusal } = rig.answer(wave, f).unwrap_err();
    let answered = refusal.told().number;
    let HandedBack { wave, refusal } = rig.withdraw(wave).unwrap_err();
    (wave, answered, refusal.told().number)
}

/// What a rig over a resistor, which raises 0, answers to a wave of its own number that is not 0: it is handed back, and nothing changes.
fn other_wave<C: Closing>(rig: &mut Rig<Resistor, C>, wave: OpenWave, f: i32) -> (OpenWave, u32)
    requires { wave.rising.value ≢ pos 0 }
    ensures { (result.0 ≡ wave) × (rig.new ≡ rig.old) }
{
    let HandedBack { wave, refusal } = rig.answer(wave, f).unwrap_err();
    (wave, refusal.told().number)
}

#[cfg(test)]
mod tests {
    use super::*;
    use adaptor::{Adaptor, Way};
    use closing::{Diode, Short, Source, Stiff};
    use port::{Storage, StorageKind};
    use rig::{PAGE_LENGTH, Page};
    use std::test::Fail;
    use wave::WeightRefusal;

    // Kept: this and the door line stand in `tried` too: a crate for the circuits of two tests is no plainer.
    fn capacitor(weight: u32) -> Result<Storage, WeightRefusal> {
        Storage::new(StorageKind::Capacitor, weight)
    }

    #[test]
    fn an_answered_wave(rt: HostRuntime) -> Result<(), Fail> {
        let mut rig = Rig::new(capacitor(5)?, Stiff, 7);
        assert_eq!(rt; number(rig.feed(100)), 0);
        assert_eq!(rt; rig.port().stored(), 200000);
        let wave = rig.raise()?;
        let codes = while_open(&mut rig, 262144);
        let rising = wave.rising().get();
        let answered = match rig.answer(wave, -7) {
            Ok(round) => round.falling.get(),
            Err(back) => {
                let HandedBack { wave, refusal: _ } = back;
                settle(&mut rig, wave);
                0
            }
        };
        assert_eq!(rt; codes, [17, 18, 18, 18, 18]);
        assert_eq!(rt; rising, 200);
        assert_eq!(rt; answered, -7);
        assert_eq!(rt; rig.port().stored(), 245);
        assert_eq!(rt; rig.clear().ok(), Some(245));
        let page = Page {
            entries: 3,
            start: 0,
            end: 0,
            absorbed: 0,
            dropped: 245,
            shortened: 0,
            swing: 49,
        };
        assert_eq!(rt; rig.turn()?, page);
        assert_eq!(rt; rig.page().entries, 0);
        Ok(())
    }

    #[test]
    fn a_wave_of_another_number(rt: HostRuntime) -> Result<(), Fail> {
        let mut first = Rig::new(capacitor(5)?, Short, 7);
        let mut second = Rig::new(capacitor(5)?, Diode, 8);
        let wave = first.raise()?;
        let (wave, answered, withdrawn) = foreign(&mut second, wave, 3);
        settle(&mut first, wave);
        assert_eq!(rt; answered, 19);
        assert_eq!(rt; withdrawn, 19);
        assert_eq!(rt; number(first.feed(0)), 0);
        assert_eq!(rt; number(second.feed(-262144)), 17);
        assert_eq!(rt; second.entries(), 0);
        Ok(())
    }

    // Feeds `count` zeros; the number of the first refusal, or 0.
    fn feed_zeros<P: Port, C: Closing>(rig: &mut Rig<P, C>, count: u32) -> u32 {
        for _ in 0..count {
            if let Err(why) = rig.feed(0) {
                return why.told().number;
            }
        }
        0
    }

    #[test]
    fn a_full_page(rt: HostRuntime) -> Result<(), Fail> {
        let mut rig = Rig::new(capacitor(511)?, Short, 0);
        assert_eq!(rt; feed_zeros(&mut rig, PAGE_LENGTH), 0);
        let raised = match rig.raise() {
            Ok(wave) => {
                settle(&mut rig, wave);
                0
            }
            Err(why) => why.told().number,
        };
        let mut out = [1, 2, 3];
        assert_eq!(rt; raised, 20);
        assert_eq!(rt; number(rig.feed(0)), 20);
        assert_eq!(rt; number(rig.feed(262144)), 17);
        assert_eq!(rt; number(rig.clear()), 20);
        assert_eq!(rt; number(rig.block(&[1, 2, 3], &mut out)), 20);
        assert_eq!(rt; number(rig.block(&[1], &mut out)), 21);
        assert_eq!(rt; out, [1, 2, 3]);
        assert_eq!(rt; rig.turn()?.entries, PAGE_LENGTH);
        assert_eq!(rt; number(rig.feed(0)), 0);
        assert_eq!(rt; rig.entries(), 1);
        Ok(())
    }

    fn door_line() -> Result<Adaptor<Storage, Adaptor<Storage, Resistor>>, Fail> {
        let coil = Storage::new(StorageKind::Coil, 31)?;
        let shunt = Adaptor::new(Way::Parallel, capacitor(320)?, Resistor::new(166, true)?)?;
        Ok(Adaptor::new(Way::Series, coil, shunt)?)
    }

    #[test]
    fn a_block(rt: HostRuntime) -> Result<(), Fail> {
        let mut rig = Rig::new(door_line()?, Source::new(166)?, 1);
        let mut out = [7; 6];
        assert_eq!(rt; number(rig.block(&[0xfa, 0, 0], &mut out)), 21);
        assert_eq!(rt;
            number(rig.block(&[0xfa, 0, 0, 0, 0, 0, 0, 0], &mut out)),
            21
        );
        assert_eq!(rt; out, [7; 6]);
        assert_eq!(rt; number(rig.block(&[0xfa, 0, 0, 0], &mut out)), 0);
        assert_eq!(rt; out, [0x19, 0, 0x48, 0, 7, 7]);
        assert_eq!(rt; rig.port().stored(), 33693104);
        let page = Page {
            entries: 2,
            start: 0,
            end: 33693104,
            absorbed: 15462070,
            dropped: 0,
            shortened: 7,
            swing: 1698937,
        };
        assert_eq!(rt; rig.page(), page);
        Ok(())
    }

    #[test]
    fn a_wave_of_the_same_number_that_is_another(rt: HostRuntime) -> Result<(), Fail> {
        let mut first = Rig::new(capacitor(5)?, Stiff, 7);
        let mut second = Rig::new(Resistor::new(9, true)?, Stiff, 7);
        assert_eq!(rt; number(first.feed(100)), 0);
        let wave = first.raise()?;
        let Ok(own) = second.raise() else {
            settle(&mut first, wave);
            return Err(Fail::new("not raised"));
        };
        if wave.rising().get() == 0 {
            settle(&mut first, wave);
            settle(&mut second, own);
            return Err(Fail::new("nothing rose"));
        }
        let (wave, answered) = other_wave(&mut second, wave, 3);
        settle(&mut second, own);
        settle(&mut first, wave);
        assert_eq!(rt; answered, 19);
        assert_eq!(rt; second.entries(), 0);
        Ok(())
    }
}
