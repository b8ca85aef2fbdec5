// A refusal in words, with the line of the listing and a mark under the place.
use assembly::AssemblyFault;
use refusals::Rule;
use std::io::Write;
use told::Tells;

const LINE_FEED: u8 = b'\n';

const TAB: u8 = b'\t';

// What each refusal means.
fn words(fault: &AssemblyFault) -> &'static str {
    match fault {
        AssemblyFault::Reading(fault) => match fault.rule {
            Rule::Size => "the text is empty or over 16,384 bytes",
            Rule::TooLong => "this line is over 120 bytes",
            Rule::Shape => {
                "an unknown first field, a field too many, a field after .end, or one missing here"
            }
            Rule::BadName => "a name has 1 to 8 letters or digits",
            Rule::BadValue => "a value has 1 to 6 digits and at most one scale factor of its kind",
            Rule::OutOfRange => "the scaled value is from 1 to 100,000,000",
            Rule::Twice => "this name was used before, or this is a second port line",
            Rule::Full => "the 33rd element or the 34th node",
            Rule::Wanting => "no port line, no element or no .end",
            Rule::Joined => "both ends at one node",
        },
        AssemblyFault::OutOfRange => "the rate or the unit is out of range",
        AssemblyFault::BadWeight(_) => "the weight of this element is outside 1 to 511",
        AssemblyFault::Irreducible => {
            "the elements do not come down to one branch between the port's nodes"
        }
        AssemblyFault::TooLarge(_) => {
            "a number of the ratio of the branch that begins here is too large"
        }
        AssemblyFault::NoEar => "there is no resistor of the ear's name",
    }
}

// The bytes of the line that has this place, up to its line feed, and a mark under the place: blanks, with tabs where the line has them.
fn print_marked(rt: &HostRuntime, text: &[u8], place: usize) -> anyhow::Result<()> {
    let before = &text[..place.min(text.len())];
    let start = match before.iter().rposition(|b| *b == LINE_FEED) {
        Some(feed) => feed + 1,
        None => 0,
    };
    let line = text[start..].split(|b| *b == LINE_FEED).next();
    let line = line.unwrap_or(&[]);
    // standard output keeps nothing back, so the line goes out whole, and so does the mark
    let mut shown = Vec::with_capacity(rt.alloc(), line.len() + 1)?;
    shown.extend_from_slice(line)?;
    shown.push(LINE_FEED)?;
    let mut mark = Vec::new(rt.alloc());
    for b in &before[start..] {
        mark.push(if *b == TAB { TAB } else { b' ' })?;
    }
    mark.extend_from_slice(b"^\n")?;
    let mut out = rt.stdout();
    out.write_all(&shown)?;
    out.write_all(&mark)?;
    Ok(())
}

pub fn print_refusal(rt: &HostRuntime, text: &[u8], fault: &AssemblyFault) -> anyhow::Result<()> {
    let told = fault.told();
    println!(rt; "{told}: {}", words(fault))?;
    print_marked(rt, text, told.place as usize)
}
