// A report as an engineer reads it.
use report::{Report, Silence, Weighing};
use std::fmt::Display;

// One number of both balances.
fn print_row<A: Display>(
    rt: &HostRuntime,
    name: &str,
    spoken: &A,
    ended: &A,
) -> anyhow::Result<()> {
    println!(rt; "{name:<26}{spoken:>25} {ended:>36}")?;
    Ok(())
}

// The two balances, side by side. A clear is an entry of the page and no round.
fn print_balances(rt: &HostRuntime, spoken: &Weighing, ended: &Weighing) -> anyhow::Result<()> {
    println!(rt;
        "                              after the last sample           after silence and clearing"
    )?;
    print_row(
        rt,
        "rounds",
        &spoken.entries,
        &ended.entries.saturating_sub(1),
    )?;
    print_row(rt, "stored", &spoken.stored, &ended.stored)?;
    print_row(rt, "absorbed", &spoken.absorbed, &ended.absorbed)?;
    print_row(rt, "dropped", &spoken.dropped, &ended.dropped)?;
    print_row(rt, "shortened", &spoken.shortened, &ended.shortened)?;
    print_row(rt, "swing", &spoken.swing, &ended.swing)?;
    print_row(rt, "d(stored+absorbed+dropped)", &spoken.left, &ended.left)?;
    print_row(rt, "d start + n swing", &spoken.right, &ended.right)
}

// What the silence showed; `bound` is the energy stored when it began.
fn print_silence(rt: &HostRuntime, silence: &Silence, bound: u64) -> anyhow::Result<()> {
    let last = silence.rounds.saturating_sub(silence.idle);
    println!(rt;
        "silence: {} rounds, the last that shortened or absorbed anything was round {last}",
        silence.rounds
    )?;
    println!(rt;
        "busy rounds {}, at most {bound}: the energy stored when the silence began",
        silence.busy
    )?;
    Ok(())
}

pub fn print_report(rt: &HostRuntime, report: &Report) -> anyhow::Result<()> {
    println!(rt;
        "ratio n/d {}/{}, stored at the start {}",
        report.ratio.num(),
        report.ratio.den(),
        report.start
    )?;
    print_balances(rt, &report.spoken, &report.ended)?;
    print_silence(rt, &report.silence, report.spoken.stored)
}
