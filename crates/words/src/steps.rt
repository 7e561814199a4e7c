// One step of the reader.
ghost use Rattle.words.specs.Steps.{Stepped, after_limit};
ghost use Rattle.std.specs.Prelude.{◌≡◌};

use crate::bounds::is_value;
use crate::counts::Counts;
use crate::kind::{Kind, kind_of};
use crate::payload::{payload, payload_bits};
use crate::refusal::Refusal;
use crate::state::State;

// The state after the first of so many limits.
fn next_limit(counts: Counts, limits: usize) -> State
    ensures { result ≡ after_limit counts limits }
{
    if limits > 1 {
        State::Coefficient(counts, counts.shape.commands, limits - 1)
    } else {
        State::Close(counts)
    }
}

impl State {
    // Takes the word at a place: its kind is judged with the state, and then its payload.
    pub(crate) fn step(&mut self, word: u32, at: usize) -> Result<(), Refusal>
        ensures { Stepped word at self.old self.new result }
    {
        let kind = kind_of(word).ok_or(Refusal::WrongKind(at))?;
        match (&mut *self, kind) {
            (State::Head, Kind::Head) => {
                let counts = Counts::in_head(word).ok_or(Refusal::Counts)?;
                *self = State::Gain(counts, counts.shape.commands);
                return Ok(());
            }
            (State::Close(counts), Kind::Close) => {
                // The cast keeps the number: a payload has 28 bits.
                if payload_bits(word) as usize != at {
                    return Err(Refusal::Close(at));
                }
                *self = State::Done(*counts);
                return Ok(());
            }
            (State::Gain(_, left), Kind::Gain) if *left > 1 => *left -= 1,
            (State::Coefficient(_, left, _), Kind::Coefficient) if *left > 1 => *left -= 1,
            (State::Slope(_, left, _), Kind::Slope) if *left > 1 => *left -= 1,
            (State::Gain(counts, _), Kind::Gain) => {
                let shape = counts.shape;
                *self = State::Coefficient(*counts, shape.commands, shape.limits);
            }
            (State::Coefficient(counts, _, limits), Kind::Coefficient) => {
                *self = State::Constant(*counts, *limits);
            }
            (State::Constant(counts, limits), Kind::Constant) => {
                let readings = counts.shape.readings;
                *self = if readings > 0 {
                    State::Slope(*counts, readings, *limits)
                } else {
                    next_limit(*counts, *limits)
                };
            }
            (State::Slope(counts, _, limits), Kind::Slope) => {
                *self = next_limit(*counts, *limits);
            }
            _ => return Err(Refusal::WrongKind(at)),
        }
        if is_value(payload(word)) {
            Ok(())
        } else {
            Err(Refusal::Value(at))
        }
    }
}
