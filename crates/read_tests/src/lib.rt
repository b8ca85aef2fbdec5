// Tests of what the reader keeps of a text: places and lengths, node numbers, kinds and scaled values.
#![tactic(auto)]

#[cfg(test)]
mod tests {
    use cut::Span;
    use reader::{Listing, read};
    use refusals::Fault;
    use std::test::Fail;
    use told::{Tells, Told};
    use values::Kind;

    const DOOR: &[u8] = b"door\nV1 1 0\nL1 1 2 100m\nC1 2 0 100n\nR1 2 0 600\n.end\n";

    fn accepted(text: &[u8]) -> Result<Listing, Fail> {
        read(text).map_err(|_| Fail::new("refused"))
    }

    fn refused(text: &[u8]) -> Result<Fault, Fail> {
        read(text).err().ok_or_else(|| Fail::new("accepted"))
    }

    #[test]
    fn elements_keep_place_and_length(rt: HostRuntime) -> Result<(), Fail> {
        let listing = accepted(DOOR)?;
        let elements = listing.elements.as_slice();
        assert_eq!(rt; elements.len(), 3);
        assert_eq!(rt; elements[0].name.place, 12);
        assert_eq!(rt; elements[1].name.place, 24);
        assert_eq!(rt; elements[2].name, Span { place: 36, len: 2 });
        assert_eq!(rt; elements[0].kind, Kind::Coil);
        assert_eq!(rt; elements[0].value.get(), 100_000);
        assert_eq!(rt; elements[1].kind, Kind::Capacitor);
        assert_eq!(rt; elements[1].value.get(), 100_000);
        assert_eq!(rt; elements[2].kind, Kind::Resistor);
        assert_eq!(rt; elements[2].value.get(), 600);
        Ok(())
    }

    #[test]
    fn nodes_are_numbered_by_first_appearance(rt: HostRuntime) -> Result<(), Fail> {
        let listing = accepted(DOOR)?;
        let nodes = listing.nodes.as_slice();
        assert_eq!(rt; nodes.len(), 3);
        assert_eq!(rt; nodes[0].name.place, 8);
        assert_eq!(rt; nodes[1].name.place, 10);
        assert_eq!(rt; nodes[2].name.place, 17);
        assert_eq!(rt; listing.port.ends.from.index, 0);
        assert_eq!(rt; listing.port.ends.to.index, 1);
        let elements = listing.elements.as_slice();
        assert_eq!(rt; elements.len(), 3);
        assert_eq!(rt; elements[0].ends.from.index, 0);
        assert_eq!(rt; elements[0].ends.to.index, 2);
        assert_eq!(rt; elements[1].ends.from.index, 2);
        assert_eq!(rt; elements[1].ends.to.index, 1);
        Ok(())
    }

    #[test]
    fn refusals_have_layer_number_and_place(rt: HostRuntime) -> Result<(), Fail> {
        let fault = refused(b"door\nV1 a 0\nR1 b B 600\n.end\n")?;
        let first = Told {
            layer: 1,
            number: 10,
            place: 17,
        };
        assert_eq!(rt; fault.told(), first);
        assert_eq!(rt; refused(b"")?.told().number, 1);
        Ok(())
    }
}
