// The reader of a plant's words.
ghost use Rattle.std.specs.Prelude.{◌≡◌, true, length};
ghost use Rattle.words.specs.Steps.{done, Stands};

use crate::state::State;

// It stands where a part begins or past the close, and the words before it are right.
#[derive(Drop)]
pub struct Reader<'a> {
    pub(crate) words: &'a [u32],
    pub(crate) at: usize,
    pub(crate) state: State,
    ghost stands: { Stands words.now at state },
    ghost whole: { (done state ≡ true → at ≡ length words.now) },
}
