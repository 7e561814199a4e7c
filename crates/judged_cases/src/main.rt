// Judges many inputs, one after another, and prints for each the line that the program prints for it.
// Standard input has for each case a word that counts its bytes, lowest byte first, and then the bytes.
#![tactic(auto)]

use anyhow::anyhow;
use input::bytes::{WORD_BYTES, words_from};
use input::judge::judge;
use input::line::Line;
use std::io::Read;

fn print_case(rt: &HostRuntime, bytes: &[u8]) -> anyhow::Result<()> {
    let words = words_from(rt.alloc(), bytes)?;
    let line = Line {
        verdict: judge(&words),
    };
    println!(rt; "{line}")?;
    Ok(())
}

fn run(rt: &HostRuntime) -> anyhow::Result<()> {
    let mut all = Vec::new(rt.alloc());
    rt.stdin().read_to_end(&mut all)?;
    let mut rest = all.as_slice();
    while let Some((count, cases)) = rest.split_first_chunk::<WORD_BYTES>() {
        let count = u32::from_le_bytes(*count) as usize;
        let Some((case, after)) = cases.split_at_checked(count) else {
            return Err(anyhow!("a case is cut off"));
        };
        print_case(rt, case)?;
        rest = after;
    }
    Ok(())
}

fn main(rt: HostRuntime) -> anyhow::Result<()> {
    run(&rt)
}
