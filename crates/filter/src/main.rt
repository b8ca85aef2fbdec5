// Filters samples from standard input through the listing `line.cir`, piece by piece, and writes what is heard.
#![tactic(auto)]

use lines::refusal_line;
use panel::{listen, source, tree_of};
use std::fs;
use std::io::{Read, Write};
use tree::ListingTree;

/// How many bytes are read at once.
const PIECE: usize = 4096;

fn main(rt: HostRuntime) -> anyhow::Result<()> {
    let text = fs::read(&rt, "line.cir").unwrap_or(Vec::new(rt.alloc()));
    match tree_of(rt.alloc(), &text)? {
        Ok((tree, _)) => pour(&rt, tree),
        Err(fault) => {
            rt.stdout().write_all(refusal_line(&fault).text())?;
            Ok(())
        }
    }
}

// Filters piece by piece until the input ends.
fn pour(rt: &HostRuntime, tree: ListingTree) -> anyhow::Result<()> {
    let mut stream = listen(tree, source());
    let mut piece = [0; PIECE];
    let mut out = [0; PIECE + 2];
    // Kept: a loop that waits on input counts, so that it ends; `balance` has its like, since what is read stands in no contract of a library.
    for _ in 0..u64::MAX {
        let n = rt.stdin().read(&mut piece)?;
        if n == 0 {
            break;
        }
        if let Some(heard) = stream.filter(&piece[..n], &mut out) {
            rt.stdout().write_all(&out[..heard])?;
        }
    }
    Ok(())
}
