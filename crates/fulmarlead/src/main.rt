// Judges the plant on standard input and prints one line: its counts, or the refusal.
#![tactic(auto)]

use input::bytes::read_words;
use input::judge::judge;
use input::line::Line;

fn run(rt: &HostRuntime) -> anyhow::Result<()> {
    let words = read_words(rt.alloc(), rt.stdin())?;
    let line = Line {
        verdict: judge(&words),
    };
    println!(rt; "{line}")?;
    Ok(())
}

fn main(rt: HostRuntime) -> anyhow::Result<()> {
    run(&rt)
}
