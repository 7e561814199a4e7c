// Words that are put back as they were on every way out.
ghost use Rattle.std.specs.Prelude.{◌≡◌, ◌≤◌, true, false};
ghost use Rattle.exact.specs.Bounds.{AllInWidth};
ghost use Rattle.rows.specs.Rewrites.{ScaledIn, ScaledOut};
ghost use Rattle.rows.specs.Guards.{most_words};

use crate::scale::Scale;

// The words that are lent, and a copy of what they were.
pub struct Guard<'a, const N: usize> {
    pub words: &'a mut [i64; N],
    saved: [i64; N],
}

impl<'a, const N: usize> Guard<'a, N> {
    pub fn new(words: &'a mut [i64; N]) -> Guard<'a, N>
        requires { N ≤ most_words }
        ensures saved { result.saved ≡ words.old }
        ensures words { result.words.now ≡ words.old }
        ensures named { result.words.ghost_name ≡ words.entry.ghost_name }
    {
        let saved = *words;
        Guard { words, saved }
    }
}

impl<const N: usize> Drop for Guard<'_, N> {
    fn drop(self)
        ensures { self.exit.0.now ≡ self.entry.saved }
    {
        let Guard { words, saved } = self;
        *words = saved;
    }
}

// Whether every word is in width after it is scaled. The words are scaled in place, and put back.
pub fn scales_in_width<const N: usize>(words: &mut [i64; N], scale: Scale) -> bool
    requires size { N ≤ most_words }
    requires widths { AllInWidth words.old }
    ensures same { words.new ≡ words.old }
    ensures result { elim result [ true ↦ ScaledIn scale.by scale.divisor words.old | false ↦ ScaledOut scale.by scale.divisor words.old ] }
{
    let guard = Guard::new(words);
    if scale.by == scale.divisor {
        return true;
    }
    scale.scale_row(&mut guard.words[..]).is_ok()
}
