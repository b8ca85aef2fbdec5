//! Every refusal below the rig, at its limits and in its order.
#![tactic(auto)]

mod wide;

#[cfg(test)]
mod tests {
    use crate::wide::Wide;
    use adaptor::{Adaptor, Apart, JoinRefusal, Joint, Way};
    use closing::Source;
    use port::{LARGEST_SIZE, Part, Port, Resistor, Storage, StorageKind};
    use std::process::Abort;
    use std::test::Fail;
    use told::{Tells, Told};
    use wave::{Ratio, Weight, WeightRefusal};

    fn is_weight(rt: &impl Abort, value: u32) -> Result<(), Fail> {
        let weight = Weight::new(value)?;
        assert_eq!(rt; weight.get(), value);
        Ok(())
    }

    fn told(layer: u32, number: u32) -> Told {
        Told {
            layer,
            number,
            place: 0,
        }
    }

    fn no_weight(rt: &impl Abort, value: u32) -> Result<(), Fail> {
        match (
            Storage::new(StorageKind::Capacitor, value),
            Storage::new(StorageKind::Coil, value),
            Resistor::new(value, true),
            Source::new(value),
        ) {
            (Err(a), Err(b), Err(c), Err(d)) => {
                assert_eq!(rt; a.told(), told(2, 12));
                assert_eq!(rt; b.told(), told(2, 12));
                assert_eq!(rt; c.told(), told(2, 12));
                assert_eq!(rt; d.told(), told(2, 12));
                Ok(())
            }
            _ => Err(Fail::new("weight")),
        }
    }

    #[test]
    fn weights(rt: HostRuntime) -> Result<(), Fail> {
        no_weight(&rt, 0)?;
        is_weight(&rt, 1)?;
        is_weight(&rt, 511)?;
        no_weight(&rt, 512)
    }

    fn reduces(rt: &impl Abort, a: u64, b: u64, num: u32, den: u32) -> Result<(), Fail> {
        let ratio = Ratio::new(a, b)?;
        assert_eq!(rt; ratio.num(), num);
        assert_eq!(rt; ratio.den(), den);
        Ok(())
    }

    fn no_ratio(rt: &impl Abort, a: u64, b: u64) -> Result<(), Fail> {
        let Err(refusal) = Ratio::new(a, b) else {
            return Err(Fail::new("ratio"));
        };
        assert_eq!(rt; refusal.told(), told(2, 14));
        Ok(())
    }

    #[test]
    fn ratios(rt: HostRuntime) -> Result<(), Fail> {
        no_ratio(&rt, 0, 0)?;
        no_ratio(&rt, 0, 5)?;
        no_ratio(&rt, 5, 0)?;
        no_ratio(&rt, 2147483648, 1)?;
        no_ratio(&rt, 1, 2147483648)?;
        reduces(&rt, 2147483647, 1, 2147483647, 1)?;
        reduces(&rt, 6442450944, 2147483648, 3, 1)
    }

    fn part(num: u64, den: u64, size: u32, ears: u32) -> Result<Part, Fail> {
        let ratio = Ratio::new(num, den)?;
        if size == 0 || size > LARGEST_SIZE || ears > 1 {
            return Err(Fail::new("part"));
        }
        Ok(Part { ratio, size, ears })
    }

    fn refused(
        rt: &impl Abort,
        way: Way,
        left: Part,
        right: Part,
        want: JoinRefusal,
    ) -> Result<(), Fail> {
        let Err(refusal) = Joint::new(way, left, right) else {
            return Err(Fail::new("joined"));
        };
        assert_eq!(rt; refusal, want);
        Ok(())
    }

    // The ratio alone is too large, the total of the shares alone, the sizes, the ears; and each of them before what comes after it.
    #[test]
    fn numbers_before_sizes(rt: HostRuntime) -> Result<(), Fail> {
        let long = part(65537, 1, 17, 1)?;
        let longer = part(65539, 1, 17, 1)?;
        refused(&rt, Way::Series, long, longer, JoinRefusal::Number)?;
        let wide = part(1, 65537, 17, 1)?;
        let wider = part(1, 65539, 17, 1)?;
        refused(&rt, Way::Parallel, wide, wider, JoinRefusal::Number)?;
        let even = part(2147483647, 2, 17, 1)?;
        let odd = part(2147483645, 2, 17, 1)?;
        refused(&rt, Way::Parallel, even, odd, JoinRefusal::Number)
    }

    #[test]
    fn sizes_before_ears(rt: HostRuntime) -> Result<(), Fail> {
        let small = part(5, 3, 16, 1)?;
        let large = part(5, 3, 17, 1)?;
        let mute = part(5, 3, 17, 0)?;
        refused(&rt, Way::Series, small, large, JoinRefusal::Size)?;
        refused(&rt, Way::Parallel, small, mute, JoinRefusal::Size)?;
        refused(&rt, Way::Series, small, small, JoinRefusal::Ears)?;
        refused(&rt, Way::Parallel, small, small, JoinRefusal::Ears)
    }

    #[test]
    fn join_numbers(rt: HostRuntime) {
        assert_eq!(rt; JoinRefusal::Number.told(), told(2, 14));
        assert_eq!(rt; JoinRefusal::Size.told(), told(2, 16));
        assert_eq!(rt; JoinRefusal::Ears.told(), told(2, 16));
    }

    fn one(ear: bool) -> Result<Resistor, WeightRefusal> {
        Resistor::new(1, ear)
    }

    // Two ports that are not joined come back as they were.
    fn parted<P: Port + Drop, Q: Port + Drop>(
        rt: &impl Abort,
        made: Result<Adaptor<P, Q>, Apart<P, Q>>,
        left: u32,
        right: u32,
        want: JoinRefusal,
    ) -> Result<(), Fail> {
        let Err(apart) = made else {
            return Err(Fail::new("joined"));
        };
        assert_eq!(rt; apart.left.size(), left);
        assert_eq!(rt; apart.right.size(), right);
        assert_eq!(rt; apart.refusal, want);
        Ok(())
    }

    #[test]
    fn adaptors(rt: HostRuntime) -> Result<(), Fail> {
        let wide = Wide {
            resistor: one(true)?,
        };
        let two = Adaptor::new(Way::Parallel, one(true)?, one(false)?)?;
        parted(
            &rt,
            Adaptor::new(Way::Series, two, wide),
            2,
            32,
            JoinRefusal::Size,
        )?;
        let two = Adaptor::new(Way::Parallel, one(false)?, one(true)?)?;
        parted(
            &rt,
            Adaptor::new(Way::Parallel, two, one(true)?),
            2,
            1,
            JoinRefusal::Ears,
        )
    }
}
