// Reads a plant, its ranges and readings from standard input, grows the map of the plant, and prints the best command for each reading.
#![tactic(auto)]

ghost use Rattle.std.specs.Prelude.{◌≤◌, length};
ghost use Rattle.words.specs.Bounds.{most_commands};

mod orders;

use crate::orders::orders;
use corner_list::corner::Corner;
use input::bytes::read_words;
use input::judge::ranges;
use input::split::{plant_end, range_follows};
use life::entry::Entry;
use life::live::live;
use life::shelf::{Beside, Empty};
use map_steps::reply::{Done, Grown, Reply};
use plant::interface::Plant;
use plant::load::load;
use plant::ranged::Ranged;
use plant::written::Written;
use script::groups::{closing, grouped, numbers};
use script::growth::{RECORDS, enough_grows, growth};
use script::line::{Line, line_of_tray};
use trays::tray::TRAY;
use words::counts::Shape;

// The denominator and the gain that stand on the tray behind the numerators of a command.
const BEHIND_NUMERATORS: usize = 2;

fn print_line(rt: &HostRuntime, line: Line<'_>) -> anyhow::Result<()> {
    println!(rt; "{line}")?;
    Ok(())
}

// How far the map has grown, or what stopped it.
fn print_growth(rt: &HostRuntime, log: &[Entry]) -> anyhow::Result<()> {
    let mut replies = Vec::with_capacity(rt.alloc(), log.len())?;
    replies.extend(log.iter().map(|entry| entry.reply))?;
    match growth(&replies) {
        Ok(mapped) => print_line(rt, Line::Map(mapped)),
        Err(refusal) => print_line(rt, Line::Refused(refusal)),
    }
}

// The line of a start or a solve, with the command of a plant of so many commands.
fn print_reply(rt: &HostRuntime, entry: &Entry, commands: usize) -> anyhow::Result<()>
    requires { commands ≤ most_commands }
{
    match line_of_tray(entry.reply, commands + BEHIND_NUMERATORS, &entry.tray) {
        Some(line) => print_line(rt, line),
        None => Ok(()),
    }
}

// Starts a map with the plant, grows it, solves each group of the readings that begin at a place, and prints what came of it.
fn run_map<P: Plant + Drop>(
    rt: &HostRuntime,
    plant: P,
    words: &[u32],
    from: usize,
) -> anyhow::Result<()>
    requires { from ≤ length words.now }
{
    let counts = plant.counts();
    let Shape {
        commands,
        readings,
        ..
    } = counts.shape();
    let groups = grouped(words, from, readings);
    let readings = numbers(rt.alloc(), words, from, groups.count * groups.each)?;
    let grows = enough_grows(counts.shape());
    let orders = orders(rt.alloc(), grows, groups, &readings)?;
    let blank = Entry {
        reply: Ok(Done::Grow(Grown::Nothing)),
        tray: [0; TRAY],
    };
    let mut log = vec![in rt.alloc(); blank; orders.len()]?;
    let mut records = vec![in rt.alloc(); Corner::default(); RECORDS]?;
    let mut tray = [0; TRAY];
    let shelf = Beside { plant, rest: Empty };
    live(&shelf, &orders, &mut records, &mut tray, &mut [], &mut log);
    print_reply(rt, &log[0], commands)?;
    let Ok(Done::Start(_)) = log[0].reply else {
        return Ok(());
    };
    print_growth(rt, &log[1..1 + grows])?;
    for entry in &log[1 + grows..] {
        print_reply(rt, entry, commands)?;
    }
    match closing(words, groups) {
        Ok(()) => Ok(()),
        Err(refusal) => print_line(rt, Line::Refused(refusal)),
    }
}

// Loads the plant and lays its ranges over it.
fn run_words(rt: &HostRuntime, words: &[u32]) -> anyhow::Result<()> {
    let end = plant_end(words);
    let plant_words = &words[0..end];
    let counts = match load(plant_words) {
        Ok(counts) => counts,
        Err(refusal) => return print_line(rt, Line::Refused(refusal)),
    };
    let plant = Written::new(plant_words, counts);
    if !range_follows(words, end) {
        return run_map(rt, plant, words, end);
    }
    let from = end + 2 * plant.commands();
    match ranges(words, end, &plant) {
        Ok(table) => run_map(rt, Ranged::new(plant, table), words, from),
        Err(refusal) => print_line(rt, Line::Refused(refusal)),
    }
}

fn run(rt: &HostRuntime) -> anyhow::Result<()> {
    let words = read_words(rt.alloc(), rt.stdin())?;
    run_words(rt, &words)
}

fn main(rt: HostRuntime) -> anyhow::Result<()> {
    run(&rt)
}
