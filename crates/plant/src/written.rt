// The written-out plant: a view of the caller's words.
ghost use Rattle.std.specs.Prelude.{◌≡◌};

use words::counts::Counts;

// Its words, and the counts that they are read with.
#[derive(Drop)]
pub struct Written<'a> {
    pub(crate) words: &'a [u32],
    pub(crate) counts: Counts,
}

impl<'a> Written<'a> {
    // The plant that the words say with these counts.
    pub fn new(words: &'a [u32], counts: Counts) -> Written<'a>
        ensures words { result.words.now ≡ words.now }
        ensures counts { result.counts ≡ counts }
    {
        Written { words, counts }
    }
}
