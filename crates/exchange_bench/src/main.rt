// Makes many exchanges at the greatest counts, each from a fresh copy of a corner's words, and prints what came of them. The time that
// they took goes to standard error. The argument says how many of each sort.
#![tactic(auto)]

mod corners;
mod repeats;

use anyhow::anyhow;
use corners::{
    COMMON_DIVISOR, COMMON_DIVISOR_LIMIT, COMMON_DIVISOR_ROW, DIVISOR_1, DIVISOR_1_LIMIT,
    DIVISOR_1_ROW,
};
use repeats::repeat;
use rows::OutOfWidth;
use std::env;
use std::time::Instant;

const FEW: usize = 1000;

fn count_asked(rt: &HostRuntime) -> anyhow::Result<usize> {
    match env::args(rt)?.nth(1) {
        Some(text) => Ok(text.parse::<usize>()?),
        None => Ok(FEW),
    }
}

fn report(
    rt: &HostRuntime,
    name: &str,
    count: usize,
    sum: Result<i64, OutOfWidth>,
    start: Instant,
) -> anyhow::Result<()> {
    let took = start.elapsed(rt)?.as_nanos();
    match sum {
        Ok(sum) => println!(rt; "{name}: {count} exchanges, sum {sum}")?,
        Err(_) => return Err(anyhow!("an exchange was out of width")),
    }
    eprintln!(rt; "{name}: {took} ns")?;
    Ok(())
}

fn run(rt: &HostRuntime) -> anyhow::Result<()> {
    let count = count_asked(rt)?;
    let start = Instant::now(rt)?;
    let sum = repeat(&DIVISOR_1, DIVISOR_1_ROW, DIVISOR_1_LIMIT, count);
    report(rt, "divisor 1", count, sum, start)?;
    let start = Instant::now(rt)?;
    let sum = repeat(
        &COMMON_DIVISOR,
        COMMON_DIVISOR_ROW,
        COMMON_DIVISOR_LIMIT,
        count,
    );
    report(rt, "common divisor", count, sum, start)
}

fn main(rt: HostRuntime) -> anyhow::Result<()> {
    run(&rt)
}
