// The lines that the program prints.
ghost use Rattle.std.specs.Prelude.{◌≡◌, take, Some};
ghost use Rattle.script.specs.Lines.{spaced, text_of, ToldBy};

use crate::growth::Mapped;
use map_steps::reply::{Done, Reached, Reply};
use std::fmt;
use trays::tray::TRAY;
use words::refusal::Refusal;

// Numbers, with a blank before each.
#[derive(Drop)]
pub struct Spaced<'a> {
    pub numbers: &'a [i64],
}

impl<'a> fmt::Display for Spaced<'a> {
    ghost output = { λ s. Some (spaced s.numbers.now) };

    fn fmt<W: fmt::Write>(&self, f: &mut fmt::Formatter<W>) -> fmt::Result {
        // By place: of a number that a loop hands out the proof does not know that it fits its type, as its decimals ask.
        for k in 0..self.numbers.len() {
            let number = self.numbers[k];
            write!(f, " {number}")?;
        }
        Ok(())
    }
}

// A command found by a solve: the numbers of the tray that say it, and the corner that it was found at.
#[derive(Clone, Copy)]
pub struct Found<'a> {
    pub command: &'a [i64],
    pub at: Reached,
}

// The first corner; how far the map has grown; the best command at a reading; or a refusal.
#[derive(Clone, Copy)]
pub enum Line<'a> {
    First(Reached),
    Map(Mapped),
    Best(Found<'a>),
    Refused(Refusal),
}

impl<'a> fmt::Display for Line<'a> {
    ghost output = { λ l. Some (text_of l) };

    fn fmt<W: fmt::Write>(&self, f: &mut fmt::Formatter<W>) -> fmt::Result {
        match *self {
            Line::First(Reached { mask, exchanges }) => write!(f, "first {mask} {exchanges}"),
            Line::Map(Mapped { corners, pairs }) => write!(f, "map {corners} {pairs}"),
            Line::Best(Found { command, at }) => {
                let command = Spaced { numbers: command };
                let mask = at.mask;
                let exchanges = at.exchanges;
                write!(f, "best{command} {mask} {exchanges}")
            }
            Line::Refused(refusal) => write!(f, "none {refusal}"),
        }
    }
}

// The line that tells the reply to a start or a solve, with the numbers of the command. Replies to other calls have no line of their own.
pub fn line_of<'a>(reply: Reply, command: &'a [i64]) -> Option<Line<'a>>
    ensures { ToldBy reply command.now result }
{
    match reply {
        Ok(Done::Start(at)) => Some(Line::First(at)),
        Ok(Done::Solve(at)) => Some(Line::Best(Found { command, at })),
        Ok(Done::Grow(_) | Done::Answer(_)) => None,
        Err(refusal) => Some(Line::Refused(refusal)),
    }
}

// The line that tells the reply to a start or a solve, with so many numbers of the tray. Replies to other calls have no line of their own.
// Not by `line_of`, whose caller cuts the command: the tray is cut here, so that the contract says which of its numbers are told.
pub fn line_of_tray<'a>(reply: Reply, shown: usize, tray: &'a [i64; TRAY]) -> Option<Line<'a>>
    ensures { ToldBy reply (take shown tray.now) result }
{
    match reply {
        Ok(Done::Start(at)) => Some(Line::First(at)),
        Ok(Done::Solve(at)) => {
            let command = &tray[..shown.min(TRAY)];
            Some(Line::Best(Found { command, at }))
        }
        Ok(Done::Grow(_) | Done::Answer(_)) => None,
        Err(refusal) => Some(Line::Refused(refusal)),
    }
}
