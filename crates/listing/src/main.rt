// Prints what a listing says: its port and its elements with their nodes and scaled values, or why it is refused.
#![tactic(auto)]

use reader::{Listing, NodeNumber, read};
use std::alloc::{AllocError, Global};
use std::{env, fs, io};
use told::Tells;

// A listing beside the text that it was read from.
#[derive(Clone, Copy)]
struct Sheet<'a> {
    heap: Global,
    text: &'a [u8],
    listing: &'a Listing,
}

impl Sheet<'_> {
    fn node(&self, number: NodeNumber) -> Result<String, AllocError> {
        match self.listing.nodes.as_slice().get(number.index) {
            Some(node) => node.name.text(self.heap, self.text),
            None => Ok(String::new(self.heap)),
        }
    }

    fn print(&self, rt: &HostRuntime) -> io::Result<()> {
        let port = self.listing.port;
        let name = port.name.text(self.heap, self.text)?;
        let from = self.node(port.ends.from)?;
        let to = self.node(port.ends.to)?;
        println!(rt; "port {name} {from} {to}")?;
        for element in self.listing.elements.as_slice() {
            let kind = element.kind.word();
            let name = element.name.text(self.heap, self.text)?;
            let from = self.node(element.ends.from)?;
            let to = self.node(element.ends.to)?;
            let value = element.value.get();
            let unit = element.kind.unit();
            println!(rt; "{kind} {name} {from} {to} {value} {unit}")?;
        }
        Ok(())
    }
}

fn main(rt: HostRuntime) -> io::Result<()> {
    let heap = rt.alloc();
    let path = match env::args(&rt)?.skip(1).last() {
        Some(path) => path,
        None => format!(in heap; "line.cir")?,
    };
    // a file that cannot be read is empty text
    let text = fs::read(&rt, path.as_str()).unwrap_or(Vec::new(heap));
    match read(text.as_slice()) {
        Ok(listing) => {
            let sheet = Sheet {
                heap,
                text: text.as_slice(),
                listing: &listing,
            };
            sheet.print(&rt)
        }
        Err(fault) => {
            let told = fault.told();
            println!(rt; "{told}")
        }
    }
}
