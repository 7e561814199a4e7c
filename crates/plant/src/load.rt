// A plant from words.
ghost use Rattle.plant.specs.Loaded.{Loaded};

use words::counts::Counts;
use words::reader::Reader;
use words::refusal::Refusal;

// Judges the words. With the counts that it answers, `Written::new` makes the plant that the words describe.
pub fn load(words: &[u32]) -> Result<Counts, Refusal>
    ensures { Loaded words.now result }
{
    let mut reader = Reader::new(words);
    // `next` is what customers call, with its own promise on refusals; an iterator of results would be a second way to ask.
    while reader.next()?.is_some() {}
    Ok(reader.counts().unwrap())
}
