// Runs recordings through the library's own calls, cut into pieces of several lengths, and compares what comes out with what must come out: samples as
// `filter` writes them, and lines as `balance` does. Standard input names the runs; NAME.cir, NAME.raw, NAME.filter and NAME.balance belong to each.
#![tactic(auto)]

use assembly::Assembled;
use closing::Source;
use lines::{page_line, refusal_line};
use panel::{listen, source, tree_of};
use std::fs;
use stream::Stream;
use tree::ListingTree;

/// The lengths of pieces that are tried.
const CUTS: [usize; 3] = [1, 3, 4096];

// A stream through the tree of a listing, and what is known of the tree; or none, and the line that refuses the listing is added.
fn stream_of(
    rt: &HostRuntime,
    text: &[u8],
    out: &mut Vec<u8>,
) -> anyhow::Result<Option<(Stream<ListingTree, Source>, Assembled)>> {
    match tree_of(rt.alloc(), text)? {
        Ok((tree, made)) => Ok(Some((listen(tree, source()), made))),
        Err(fault) => {
            out.extend_from_slice(refusal_line(&fault).text())?;
            Ok(None)
        }
    }
}

// What `filter` writes.
fn filtered(rt: &HostRuntime, text: &[u8], samples: &[u8], cut: usize) -> anyhow::Result<Vec<u8>> {
    let mut out = Vec::new(rt.alloc());
    let Some((mut stream, _)) = stream_of(rt, text, &mut out)? else {
        return Ok(out);
    };
    let mut heard = [0; 4098];
    for piece in samples.chunks(cut.max(1)) {
        if let Some(n) = stream.filter(piece, &mut heard) {
            out.extend_from_slice(&heard[..n])?;
        }
    }
    Ok(out)
}

// Feeds one piece, and adds a line for each page that it fills.
// Kept: `balance` has its like over the output; what a failed write leaves stands in no contract, so neither is a library's.
fn weigh_piece(
    stream: &mut Stream<ListingTree, Source>,
    piece: &[u8],
    made: Assembled,
    out: &mut Vec<u8>,
) -> anyhow::Result<()> {
    let mut left = piece;
    while let Some((page, rest)) = stream.measure(left) {
        out.extend_from_slice(page_line(made.num, made.den, page).text())?;
        left = rest;
    }
    Ok(())
}

// What `balance` writes.
// Kept: apart from `filtered`: a piece gives bytes there, and pages and a last page here.
fn balanced(rt: &HostRuntime, text: &[u8], samples: &[u8], cut: usize) -> anyhow::Result<Vec<u8>> {
    let mut out = Vec::new(rt.alloc());
    let Some((mut stream, made)) = stream_of(rt, text, &mut out)? else {
        return Ok(out);
    };
    for piece in samples.chunks(cut.max(1)) {
        weigh_piece(&mut stream, piece, made, &mut out)?;
    }
    if let Some(page) = stream.finish() {
        out.extend_from_slice(page_line(made.num, made.den, page).text())?;
    }
    Ok(out)
}

fn verdict(ours: &[u8], wanted: &[u8]) -> &'static str {
    if ours == wanted { "agrees" } else { "DIFFERS" }
}

fn compare(rt: &HostRuntime, name: &str) -> anyhow::Result<()> {
    let heap = rt.alloc();
    let text = fs::read(rt, format!(in heap; "{name}.cir")?)?;
    let samples = fs::read(rt, format!(in heap; "{name}.raw")?)?;
    let wanted = fs::read(rt, format!(in heap; "{name}.filter")?)?;
    let lines = fs::read(rt, format!(in heap; "{name}.balance")?)?;
    for cut in CUTS {
        let filter = verdict(&filtered(rt, &text, &samples, cut)?, &wanted);
        let balance = verdict(&balanced(rt, &text, &samples, cut)?, &lines);
        println!(rt; "{name}, pieces of {cut}: filter {filter}, balance {balance}")?;
    }
    Ok(())
}

fn main(rt: HostRuntime) -> anyhow::Result<()> {
    for line in rt.lines(rt.alloc()) {
        compare(&rt, line?.as_str())?;
    }
    Ok(())
}
