// Assembles the listings that stdin names, and says of each what its tree is, or by which rule it is refused and where.
#![tactic(auto)]

use panel::tree_of;
use std::{fs, io};
use told::Tells;

fn main(rt: HostRuntime) -> io::Result<()> {
    for line in rt.lines(rt.alloc()) {
        let name = line?;
        let text = fs::read(&rt, format!(in rt.alloc(); "{name}.cir")?)?;
        match tree_of(rt.alloc(), &text)? {
            Ok((_, made)) => println!(rt;
                "{name}\tratio {} {} size {}",
                made.num, made.den, made.elements
            )?,
            Err(fault) => println!(rt; "{name}\t{}", fault.told())?,
        }
    }
    Ok(())
}
