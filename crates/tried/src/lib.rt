//! Ports and closings, tried on examples. The expected values come from a separate model of the equations in exact fractions.
#![tactic(auto)]

#[cfg(test)]
mod tests {
    use adaptor::{Adaptor, Way};
    use closing::{BoundedClosing, Closing, Diode, Short, Source, Stiff};
    use port::StorageKind::{Capacitor, Coil};
    use port::{Port, Resistor, Storage};
    use std::process::Abort;
    use std::test::Fail;
    use wave::Ratio;
    use worked::Row;

    // A round of a port and a closing at the sample e.
    fn round<P: Port, C: Closing>(rt: &impl Abort, port: &mut P, closing: &C, e: i32, want: Row) {
        let rising = port.rising().get();
        let falling = closing.answer(rising, e, port.ratio()).get();
        let taken = port.take(falling);
        let row = Row {
            rising,
            falling,
            absorbed: taken.absorbed,
            shortened: taken.shortened,
            heard: taken.heard,
            stored: port.stored(),
        };
        assert_eq!(rt; row, want);
    }

    fn shows<P: Port>(rt: &impl Abort, port: &P, num: u32, den: u32, size: u32, ears: u32) {
        assert_eq!(rt; port.ratio().num(), num);
        assert_eq!(rt; port.ratio().den(), den);
        assert_eq!(rt; port.size(), size);
        assert_eq!(rt; port.ears(), ears);
    }

    #[test]
    fn door_line(rt: HostRuntime) -> Result<(), Fail> {
        let shunt = Adaptor::new(
            Way::Parallel,
            Storage::new(Capacitor, 320)?,
            Resistor::new(166, true)?,
        )?;
        let mut line = Adaptor::new(Way::Series, Storage::new(Coil, 31)?, shunt)?;
        let source = Source::new(166)?;
        let first = Row {
            rising: 0,
            falling: 1701,
            absorbed: 1693366,
            shortened: 2,
            heard: 101,
            stored: 82525151,
        };
        shows(&rt, &line, 15066, 517, 3, 1);
        round(&rt, &mut line, &source, 1000, first);
        round(
            &rt,
            &mut line,
            &source,
            0,
            Row {
                rising: -1533,
                falling: 1075,
                absorbed: 13768704,
                shortened: 5,
                heard: 288,
                stored: 33693104,
            },
        );
        assert_eq!(rt; line.clear(), 33693104);
        assert_eq!(rt; line.stored(), 0);
        round(&rt, &mut line, &source, 1000, first);
        Ok(())
    }

    #[test]
    fn joints_within_joints(rt: HostRuntime) -> Result<(), Fail> {
        let ring = Adaptor::new(
            Way::Series,
            Storage::new(Capacitor, 5)?,
            Storage::new(Coil, 7)?,
        )?;
        let left = Adaptor::new(Way::Parallel, ring, Resistor::new(11, true)?)?;
        let branch = Adaptor::new(
            Way::Series,
            Resistor::new(13, false)?,
            Storage::new(Coil, 2)?,
        )?;
        let right = Adaptor::new(Way::Parallel, Storage::new(Capacitor, 3)?, branch)?;
        let mut net = Adaptor::new(Way::Series, left, right)?;
        let source = Source::new(9)?;
        shows(&rt, &net, 11857, 3357, 6, 1);
        round(
            &rt,
            &mut net,
            &source,
            200000,
            Row {
                rising: 0,
                falling: 262143,
                absorbed: 57532954864,
                shortened: 6,
                heard: 66531,
                stored: 185181022937,
            },
        );
        round(
            &rt,
            &mut net,
            &source,
            -262143,
            Row {
                rising: 64220,
                falling: -262143,
                absorbed: 78354625711,
                shortened: 12,
                heard: -78183,
                stored: 242796014983,
            },
        );
        round(
            &rt,
            &mut net,
            &Stiff,
            250000,
            Row {
                rising: -163234,
                falling: 262143,
                absorbed: 182606183352,
                shortened: 12,
                heard: 128833,
                stored: 208786635876,
            },
        );
        round(
            &rt,
            &mut net,
            &Diode,
            7,
            Row {
                rising: 133470,
                falling: -133470,
                absorbed: 118511109888,
                shortened: 12,
                heard: -103124,
                stored: 90269376002,
            },
        );
        round(
            &rt,
            &mut net,
            &Short,
            -5,
            Row {
                rising: -92772,
                falling: 92772,
                absorbed: 80511521657,
                shortened: 12,
                heard: 84802,
                stored: 9753926647,
            },
        );
        assert_eq!(rt; net.clear(), 9753926647);
        assert_eq!(rt; net.rising().get(), 0);
        shows(&rt, &net, 11857, 3357, 6, 1);
        Ok(())
    }

    // What the four closings answer and the three bounded ones offer.
    fn asked(rt: &impl Abort, r: i32, e: i32, falling: [i32; 4], offer: u64) -> Result<(), Fail> {
        let source = Source::new(166)?;
        let ratio = Ratio::new(15066, 517)?;
        assert_eq!(rt; source.answer(r, e, ratio).get(), falling[0]);
        assert_eq!(rt; Short.answer(r, e, ratio).get(), falling[1]);
        assert_eq!(rt; Diode.answer(r, e, ratio).get(), falling[2]);
        assert_eq!(rt; Stiff.answer(r, e, ratio).get(), falling[3]);
        assert_eq!(rt; source.offer(e), offer);
        assert_eq!(rt; Short.offer(e), 0);
        assert_eq!(rt; Diode.offer(e), 0);
        Ok(())
    }

    #[test]
    fn closings(rt: HostRuntime) -> Result<(), Fail> {
        asked(&rt, 0, 1000, [1701, 0, 0, 2000], 166000000)?;
        asked(&rt, -1533, 0, [1075, 1533, -1533, 1533], 0)?;
        asked(
            &rt,
            300000,
            -300000,
            [-262143, -262143, -262143, -262143],
            11407346106534,
        )?;
        asked(
            &rt,
            -262143,
            262143,
            [262143, 262143, -262143, 262143],
            11407346106534,
        )?;
        asked(&rt, 7, -7, [-16, -7, -7, -21], 8134)
    }
}
