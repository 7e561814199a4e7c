// Readings, and a tableau at readings.
ghost use Rattle.std.specs.Prelude.{◌≡◌, length};
ghost use Rattle.exact.specs.Bounds.{AllInWidth};
ghost use Rattle.tableau_words.specs.Layout.{size};

use crate::view::Tableau;
use words::counts::Counts;

// A number in width for each reading of the counts.
#[derive(Clone, Copy)]
pub struct Reading<'a> {
    pub counts: Counts,
    pub numbers: &'a [i64],
    pub ghost told: { length numbers.now ≡ counts.shape.readings },
    pub ghost small: { AllInWidth numbers.now },
}

// The words of a tableau with the counts of the readings. It holds no `Tableau`, which has counts of its own: the two would have to be
// held equal.
#[derive(Clone, Copy)]
pub struct TableauAt<'a> {
    pub reading: Reading<'a>,
    pub words: &'a [i64],
    pub ghost long: { length words.now ≡ size reading.counts.shape },
    pub ghost wide: { AllInWidth words.now },
}

impl<'a> Reading<'a> {
    // The tableau whose words these are, at the readings.
    pub fn over(&self, words: &'a [i64]) -> TableauAt<'a>
        requires long { length words.now ≡ size self.now.counts.shape }
        requires wide { AllInWidth words.now }
        ensures counts { result.reading.counts ≡ self.now.counts }
        ensures numbers { result.reading.numbers.now ≡ self.now.numbers.now }
        ensures words { result.words.now ≡ words.now }
    {
        TableauAt {
            reading: *self,
            words,
        }
    }
}

impl<'a> TableauAt<'a> {
    pub fn tableau(&self) -> Tableau<'a>
        ensures counts { result.counts ≡ self.now.reading.counts }
        ensures words { result.words.now ≡ self.now.words.now }
    {
        Tableau {
            counts: self.reading.counts,
            words: self.words,
        }
    }
}
