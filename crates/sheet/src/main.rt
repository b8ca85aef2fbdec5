// The balance sheet of a recording: the listing's elements with their weights, its tree and ratio, what was stored, absorbed, dropped and shortened,
// and how the silence after it went; or the refusal of the listing in words.
#![tactic(auto)]

mod parts;
mod shown;
mod words;

use anyhow::anyhow;
use panel::{source, tree_of};
use reader::read;
use report::report_on;
use std::fs;
use std::io::Read;

fn main(rt: HostRuntime) -> anyhow::Result<()> {
    let text = fs::read(&rt, "line.cir").unwrap_or(Vec::new(rt.alloc()));
    let tree = match tree_of(rt.alloc(), &text)? {
        Ok((tree, _)) => tree,
        Err(fault) => return words::print_refusal(&rt, &text, &fault),
    };
    let Ok(listing) = read(&text) else {
        return Err(anyhow!("the listing is refused"));
    };
    parts::print_elements(&rt, &text, &listing)?;
    parts::print_tree(&rt, &text, &listing, &tree)?;
    let mut samples = Vec::new(rt.alloc());
    rt.stdin().read_to_end(&mut samples)?;
    let report = report_on(tree, source(), &samples)?;
    shown::print_report(&rt, &report)
}
