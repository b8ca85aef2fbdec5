// Feeds samples from standard input through the listing `line.cir`, piece by piece, and writes a line for each page.
#![tactic(auto)]

use assembly::Assembled;
use closing::Source;
use lines::{Line, page_line, refusal_line};
use panel::{listen, source, tree_of};
use std::fs;
use std::io::{Read, Write};
use stream::Stream;
use tree::ListingTree;

/// How many bytes are read at once.
const PIECE: usize = 4096;

fn main(rt: HostRuntime) -> anyhow::Result<()> {
    let text = fs::read(&rt, "line.cir").unwrap_or(Vec::new(rt.alloc()));
    match tree_of(rt.alloc(), &text)? {
        Ok((tree, made)) => weigh(&rt, tree, made),
        Err(fault) => write_line(&rt, refusal_line(&fault)),
    }
}

fn write_line(rt: &HostRuntime, line: Line) -> anyhow::Result<()> {
    rt.stdout().write_all(line.text())?;
    Ok(())
}

// Feeds one piece, and writes a line for each page that it fills.
// Kept: `conformance` has its like over a `Vec`; what a failed write leaves stands in no contract, so neither is a library's.
fn weigh_piece(
    rt: &HostRuntime,
    stream: &mut Stream<ListingTree, Source>,
    piece: &[u8],
    made: Assembled,
) -> anyhow::Result<()> {
    let mut left = piece;
    while let Some((page, rest)) = stream.measure(left) {
        write_line(rt, page_line(made.num, made.den, page))?;
        left = rest;
    }
    Ok(())
}

// Weighs piece by piece until the input ends.
fn weigh(rt: &HostRuntime, tree: ListingTree, made: Assembled) -> anyhow::Result<()> {
    let mut stream = listen(tree, source());
    let mut piece = [0; PIECE];
    // Kept: a loop that waits on input counts, so that it ends; `filter` has its like, since what is read stands in no contract of a library.
    for _ in 0..u64::MAX {
        let n = rt.stdin().read(&mut piece)?;
        if n == 0 {
            break;
        }
        weigh_piece(rt, &mut stream, &piece[..n], made)?;
    }
    if let Some(page) = stream.finish() {
        write_line(rt, page_line(made.num, made.den, page))?;
    }
    Ok(())
}
