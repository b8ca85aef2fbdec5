//! Takes of two listing trees, the door line and 32 equal capacitors in parallel, with the same falling waves. It prints the sums of what
//! they answer; given the argument `time`, it runs ten million takes of each and prints how long one lasts.
#![tactic(auto)]

use adaptor::Way;
use port::{Port, Resistor, Storage, StorageKind};
use std::time::Instant;
use std::{env, io};
use tree::{Body, Element, ListingTree, Room};

const SHORT_RUN: u32 = 10_000;

const LONG_RUN: u32 = 10_000_000;

// The sums of what a run answers.
#[derive(Clone, Copy, Default)]
struct Sums {
    absorbed: u64,
    shortened: u64,
    heard: i64,
    rising: i64,
}

fn storage(index: u32, kind: StorageKind, weight: u32) -> Option<ListingTree> {
    let storage = Storage::new(kind, weight).ok()?;
    Some(ListingTree::leaf(Element {
        index,
        body: Body::Store(storage),
    }))
}

// A coil of 31 in series with a capacitor of 320 and a resistor of 166, which hears, in parallel.
fn door(room: &mut Room) -> Option<ListingTree> {
    let coil = storage(0, StorageKind::Coil, 31)?;
    let capacitor = storage(1, StorageKind::Capacitor, 320)?;
    let resistor = ListingTree::leaf(Element {
        index: 2,
        body: Body::Resist(Resistor::new(166, true).ok()?),
    });
    let behind = ListingTree::join(Way::Parallel, capacitor, resistor, room).ok()?;
    ListingTree::join(Way::Series, coil, behind, room).ok()
}

// 32 capacitors of 320 in parallel, joined one after the other.
fn capacitors(room: &mut Room) -> Option<ListingTree> {
    let mut all = storage(0, StorageKind::Capacitor, 320)?;
    for index in 1..32 {
        let next = storage(index, StorageKind::Capacitor, 320)?;
        all = ListingTree::join(Way::Parallel, all, next, room).ok()?;
    }
    Some(all)
}

// The next number of Marsaglia's xorshift.
fn stir(x: u32) -> u32 {
    let x = x ^ (x << 13);
    let x = x ^ (x >> 17);
    x ^ (x << 5)
}

fn run(tree: &mut ListingTree, turns: u32) -> Sums {
    let mut sums = Sums::default();
    let mut x = 1;
    for _ in 0..turns {
        x = stir(x);
        let taken = tree.take((x & 131071) as i32 - 65536);
        sums.absorbed = sums.absorbed.wrapping_add(taken.absorbed);
        sums.shortened = sums.shortened.wrapping_add(taken.shortened as u64);
        sums.heard = sums.heard.wrapping_add(taken.heard as i64);
        sums.rising = sums.rising.wrapping_add(tree.rising().get() as i64);
    }
    sums
}

// A run of the tree and its sums; answers the nanoseconds that it took.
fn timed(rt: &HostRuntime, name: &str, tree: &mut ListingTree, turns: u32) -> io::Result<u128> {
    let start = Instant::now(rt)?;
    let sums = run(tree, turns);
    let took = start.elapsed(rt)?.as_nanos();
    println!(rt;
        "{name}: {turns} takes, absorbed {}, shortened {}, heard {}, rising {}",
        sums.absorbed, sums.shortened, sums.heard, sums.rising
    )?;
    Ok(took)
}

fn main(rt: HostRuntime) -> io::Result<()> {
    let long = env::args(&rt)?.any(|word| word.as_str() == "time");
    let turns = if long { LONG_RUN } else { SHORT_RUN };
    let mut room = Room::new(rt.alloc(), 66)?;
    let Some(mut line) = door(&mut room) else {
        return println!(rt; "door: refused");
    };
    let Some(mut bank) = capacitors(&mut room) else {
        return println!(rt; "32 capacitors: refused");
    };
    println!(rt; "door: ratio {}/{}", line.ratio().num(), line.ratio().den())?;
    let small = timed(&rt, "door", &mut line, turns)?;
    let large = timed(&rt, "32 capacitors", &mut bank, turns)?;
    if long {
        println!(rt; "door: {} ns a take", small / u128::from(LONG_RUN))?;
        println!(rt; "32 capacitors: {} ns a take", large / u128::from(LONG_RUN))?;
        if small > 0 {
            println!(rt; "32 capacitors take {} times as long", large / small)?;
        }
    }
    Ok(())
}
