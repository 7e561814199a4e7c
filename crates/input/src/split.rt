// The parts of the input.
ghost use Rattle.std.specs.Prelude.{◌≡◌, ◌+◌, ◌≤◌, true, length, MatchBool, MatchResult};
ghost use Rattle.input.specs.Split.{most_range_words, PlantEnds, RangeFollows, RangeWords, RangeWordsFaulty, Payloads};

use words::bounds::MOST_COMMANDS;
use words::kind::Kind;
use words::payload::{kind_number, payload};
use words::refusal::Refusal;

// A low and a high for each command. The numbers stand in a fixed array, so that judging an input needs no memory and cannot fail for want of it.
pub const MOST_RANGE_WORDS: usize = 2 * MOST_COMMANDS;

// How many words the plant has. Kinds are compared by their numbers here: by `kind_of` it is no plainer, and a proof goes through all kinds.
pub fn plant_end(words: &[u32]) -> usize
    ensures ends { PlantEnds words.now result }
    ensures within { result ≤ length words.now }
{
    words
        .iter()
        .position(|&word| kind_number(word) == Kind::Close as u32)
        .map_or(words.len(), |close| close + 1)
}

// Does a range follow the plant?
pub fn range_follows(words: &[u32], end: usize) -> bool
    ensures { MatchBool result (RangeFollows words.now end) (RangeFollows words.now end → ⊥) }
{
    words
        .get(end)
        .is_some_and(|&word| kind_number(word) == Kind::Range as u32)
}

// The numbers of so many range words from a place on. A refusal tells the place in the whole input, so the words stay whole and the place goes with them.
pub fn range_numbers(
    words: &[u32],
    from: usize,
    count: usize,
) -> Result<[i32; MOST_RANGE_WORDS], Refusal>
    requires few { count ≤ most_range_words }
    requires within { from ≤ length words.now }
    ensures { MatchResult result (λ zs. RangeWords words.now from count × Payloads words.now from count zs × (length zs ≡ most_range_words)) (RangeWordsFaulty words.now from count) }
{
    let mut numbers = [0; MOST_RANGE_WORDS];
    for (i, number) in numbers[..count].iter_mut().enumerate() {
        let at = from + i;
        let word = *words.get(at).ok_or(Refusal::Short(at))?;
        if kind_number(word) != Kind::Range as u32 {
            return Err(Refusal::WrongKind(at));
        }
        *number = payload(word);
    }
    Ok(numbers)
}
