// The record of a listed corner.
ghost use Rattle.std.specs.Prelude.{◌≡◌, replicate, pos};
ghost use Rattle.tableau_words.specs.Layout.{most_size};

use tableau_words::size::MOST_WORDS;

// A listed corner: its mask, and the words of its tableau, with zeros after them. The library has no heap, so there is room for the
// largest.
#[derive(Clone, Copy)]
pub struct Corner {
    pub mask: u32,
    pub words: [i64; MOST_WORDS],
}

impl Default for Corner {
    ghost is_default = { λ corner. (corner.mask ≡ 0) × (corner.words ≡ replicate most_size (pos 0)) };

    // The record without numbers, to make room for corners with.
    fn default() -> Corner {
        Corner {
            mask: 0,
            words: [0; MOST_WORDS],
        }
    }
}
