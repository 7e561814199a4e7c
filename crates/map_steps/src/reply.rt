// What the calls on a map answer.
ghost use Rattle.std.specs.Prelude.{◌≡◌};
ghost use Rattle.map_steps.specs.Replies.{grown_number};

use words::refusal::Refusal;

// The corner that a call came to, and its exchanges on the way there: a start's first corner, or the one at which a solve's run ended.
#[derive(Clone, Copy, PartialEq, Eq, Debug)]
pub struct Reached {
    pub mask: u32,
    pub exchanges: u32,
}

// What a look at one pair came to; the numbers are the customer's.
#[derive(Clone, Copy, PartialEq, Eq, Debug)]
pub enum Grown {
    // Nothing was added.
    Nothing = 0,
    // A new corner was listed.
    Listed = 1,
    // No pair is left.
    Finished = 2,
}

impl From<Grown> for u32 {
    ghost from_gives = { λ grown number. number ≡ grown_number grown };

    fn from(grown: Grown) -> u32 {
        grown as u32
    }
}

// The corner whose region holds the reading, and its place in the list, from 0.
#[derive(Clone, Copy, PartialEq, Eq, Debug)]
pub struct Answered {
    pub mask: u32,
    pub place: usize,
}

// What a call did: each kind of call has an answer of its own.
#[derive(Clone, Copy, PartialEq, Eq, Debug)]
pub enum Done {
    Start(Reached),
    Solve(Reached),
    Grow(Grown),
    Answer(Answered),
}

// The reply to any call.
pub type Reply = Result<Done, Refusal>;
