// The readings of the input, in groups.
ghost use Rattle.std.specs.Prelude.{◌≡◌, ◌+◌, ◌≤◌, length, IfOk};
ghost use Rattle.input.specs.Split.{Payloads};
ghost use Rattle.script.specs.Groups.{LeadingReadings, ReadingsEnd, WholeGroups, GroupsOf, Closing};

use std::alloc::{AllocError, Global};
use words::kind::Kind;
use words::payload::{kind_number, payload};
use words::refusal::Refusal;

// Where the readings begin and end, how many there are in each group, and how many whole groups.
#[derive(Clone, Copy)]
pub struct Groups {
    pub from: usize,
    pub end: usize,
    pub each: usize,
    pub count: usize,
}

// How many readings stand before the first word of another kind, told by its number: by `kind_of` it is no plainer.
fn leading_readings(words: &[u32]) -> usize
    ensures { LeadingReadings words.now result }
{
    words
        .iter()
        .position(|&word| kind_number(word) != Kind::Reading as u32)
        .unwrap_or(words.len())
}

// Where the readings end that begin at a place, which is one in the whole input, as refusals tell it. A plant without readings takes none.
fn readings_end(words: &[u32], from: usize, each: usize) -> usize
    requires { from ≤ length words.now }
    ensures { ReadingsEnd words.now each from result }
{
    if each == 0 {
        return from;
    }
    from + leading_readings(&words[from..])
}

// How many whole groups so many words make.
fn whole_groups(each: usize, words: usize) -> usize
    ensures { WholeGroups each words result }
{
    if each == 0 { 1 } else { words / each }
}

// The groups of the readings that begin at a place.
pub fn grouped(words: &[u32], from: usize, each: usize) -> Groups
    requires { from ≤ length words.now }
    ensures { GroupsOf words.now from each result }
{
    let end = readings_end(words, from, each);
    let count = whole_groups(each, end - from);
    Groups {
        from,
        end,
        each,
        count,
    }
}

// What is refused behind the groups.
pub fn closing(words: &[u32], groups: Groups) -> Result<(), Refusal>
    requires { GroupsOf words.now groups.from groups.each groups }
    ensures { Closing (length words.now) groups result }
{
    if groups.end < words.len() {
        return Err(Refusal::WrongKind(groups.end));
    }
    if groups.from + groups.count * groups.each < groups.end {
        return Err(Refusal::Reading(0));
    }
    Ok(())
}

// The numbers of so many words from a place on.
pub fn numbers(
    alloc: Global,
    words: &[u32],
    from: usize,
    count: usize,
) -> Result<Vec<i64>, AllocError>
    requires { from + count ≤ length words.now }
    ensures { IfOk result (λ v. (length v.items ≡ count) × Payloads words.now from count v.items) }
{
    // The room is made at once: `collect` would make it anew, twice as large, each time it is full.
    let mut numbers = Vec::with_capacity(alloc, count)?;
    let words = &words[from..from + count];
    numbers.extend(words.iter().map(|&word| i64::from(payload(word))))?;
    Ok(numbers)
}
