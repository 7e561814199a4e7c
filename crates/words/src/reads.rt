// What the reader hands out.
ghost use Rattle.std.specs.Prelude.{◌≡◌, ◌+◌, ◌≤◌, false, length, MatchResult};
ghost use Rattle.words.specs.Faults.{Faulty};
ghost use Rattle.words.specs.Parts.{Handed, PartAt, words_in, ReadWhole};
ghost use Rattle.words.specs.Steps.{span as span_of, Stands, done};

use crate::counts::Counts;
use crate::part::Part;
use crate::reader::Reader;
use crate::refusal::Refusal;
use crate::state::State;

impl State {
    // The number of words of the part that begins here.
    fn span(&self) -> usize
        ensures { result ≡ span_of self.now }
    {
        match *self {
            State::Head | State::Close(_) => 1,
            State::Gain(_, left) => left,
            State::Coefficient(counts, _, _) => counts.shape.commands + (1 + counts.shape.readings),
            State::Constant(..) | State::Slope(..) | State::Done(_) => 0,
        }
    }
}

impl<'a> Reader<'a> {
    // A reader before the first of the words.
    pub fn new(words: &'a [u32]) -> Reader<'a>
        ensures words { result.words.now ≡ words.now }
        ensures place { result.at ≡ 0 }
    {
        Reader {
            words,
            at: 0,
            state: State::Head,
        }
    }

    // Takes the words of the part that begins here, and gives the state after them.
    fn read_part(&self) -> Result<State, Refusal>
        ensures { MatchResult result (λ s. Stands self.now.words.now (self.now.at + span_of self.now.state) s) (Faulty self.now.words.now) }
    {
        let mut state = self.state;
        // By place, which each refusal tells.
        for at in self.at..self.at + self.state.span() {
            let Some(&word) = self.words.get(at) else {
                return Err(Refusal::Short(at));
            };
            state.step(word, at)?;
        }
        Ok(state)
    }

    // The part that begins here.
    fn part(&self) -> Part<'a>
        requires more { done self.now.state ≡ false }
        requires long { self.now.at + span_of self.now.state ≤ length self.now.words.now }
        ensures part { PartAt self.now.words.now self.now.at result }
        ensures span { words_in result ≡ span_of self.now.state }
    {
        let from = self.at;
        let part = &self.words[from..from + self.state.span()];
        match self.state {
            State::Head => Part::Head(part, from),
            State::Gain(..) => Part::Gains(part, from),
            State::Coefficient(..) => Part::Limit(part, from),
            State::Close(_) => Part::Close(part, from),
            State::Constant(..) | State::Slope(..) | State::Done(_) => unreachable!(),
        }
    }

    // The next part, or none once the close is read. A refusal leaves the reader where it stands.
    pub fn next(&mut self) -> Result<Option<Part<'a>>, Refusal>
        ensures words { self.new.words.now ≡ self.old.words.now }
        ensures handed { Handed self.old.words.now self.old.at self.new.at result }
    {
        if let State::Done(_) = self.state {
            return Ok(None);
        }
        let state = self.read_part()?;
        let at = self.at + self.state.span();
        if let State::Done(_) = state
            && at < self.words.len()
        {
            return Err(Refusal::Close(at));
        }
        let part = self.part();
        self.at = at;
        self.state = state;
        Ok(Some(part))
    }

    // The counts that the head says, once the close is read.
    pub fn counts(&self) -> Option<Counts>
        ensures { ReadWhole self.now.words.now self.now.at result }
    {
        match self.state {
            State::Done(counts) => Some(counts),
            _ => None,
        }
    }
}
