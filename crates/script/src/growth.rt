// How far a map has grown.
ghost use Rattle.std.specs.Prelude.{◌≡◌, ◌+◌, ◌-◌, ◌*◌, ◌≤◌};
ghost use Rattle.words.specs.Layout.{InBounds};
ghost use Rattle.script.specs.Growths.{records, examines, lists, Growth};

use map_steps::reply::{Done, Grown, Reply};
use words::counts::Shape;
use words::refusal::Refusal;

// The records that the program lends its map.
pub const RECORDS: usize = 128;

// How many corners are listed, and how many pairs were examined.
#[derive(Clone, Copy)]
pub struct Mapped {
    pub corners: usize,
    pub pairs: usize,
}

// So many grows examine every pair of a full list, and find that none is left.
pub fn enough_grows(shape: Shape) -> usize
    requires { InBounds shape }
    ensures { result ≡ records * (shape.limits - shape.commands) + 1 }
{
    RECORDS * shape.limits.saturating_sub(shape.commands) + 1
}

// Whether the call was a grow that examined a pair.
fn examined(reply: Reply) -> bool
    ensures { result ≡ examines reply }
{
    matches!(reply, Ok(Done::Grow(Grown::Nothing | Grown::Listed)))
}

// Whether it listed a new corner.
fn listed(reply: Reply) -> bool
    ensures { result ≡ lists reply }
{
    matches!(reply, Ok(Done::Grow(Grown::Listed)))
}

// What the replies to grows say, up to the first that examined no pair.
pub fn growth(replies: &[Reply]) -> Result<Mapped, Refusal>
    ensures { Growth replies.now result }
{
    let mut corners = 1;
    for (pairs, &reply) in replies.iter().enumerate() {
        reply?;
        if !examined(reply) {
            return Ok(Mapped { corners, pairs });
        }
        if listed(reply) {
            corners += 1;
        }
    }
    Ok(Mapped {
        corners,
        pairs: replies.len(),
    })
}
