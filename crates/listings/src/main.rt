// Reads the listings that stdin names, and says of each that it is accepted, or by which rule it is refused and where.
// Kept: `assemblies` has its like: what is said of a listing is another thing there.
#![tactic(auto)]

use reader::read;
use std::{fs, io};
use told::Tells;

fn main(rt: HostRuntime) -> io::Result<()> {
    for line in rt.lines(rt.alloc()) {
        let name = line?;
        let path = format!(in rt.alloc(); "{name}.cir")?;
        let text = fs::read(&rt, path.as_str())?;
        match read(text.as_slice()) {
            Ok(_) => println!(rt; "{name}: accepted")?,
            Err(fault) => {
                let told = fault.told();
                println!(rt; "{name}: {told}")?;
            }
        }
    }
    Ok(())
}
