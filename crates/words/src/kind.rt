// The kinds of words.
ghost use Rattle.std.specs.Prelude.{◌≡◌};
ghost use Rattle.words.specs.Words.{kind_bits};
ghost use Rattle.words.specs.Kinds.{code, IsKind};

use crate::payload::kind_number;

// The kinds of a plant's words, and from the seventh on those of words that stand in no plant: a range, a reading, and the
// words of a stored map.
#[derive(Clone, Copy, PartialEq, Eq, Debug)]
pub enum Kind {
    Head = 1,
    Gain = 2,
    Coefficient = 3,
    Constant = 4,
    Slope = 5,
    Close = 6,
    Range = 7,
    Reading = 8,
    MapHead = 9,
    Mask = 10,
    Divisor = 11,
    Law = 12,
    Slack = 13,
    MapClose = 14,
}

impl From<Kind> for u32 {
    ghost from_gives = { λ kind number. number ≡ code kind };

    fn from(kind: Kind) -> u32 {
        kind as u32
    }
}

// The kind of a word; none where its number is 0 or 15. The language has no way from a number to a variant but a match.
pub fn kind_of(word: u32) -> Option<Kind>
    ensures { IsKind (kind_bits word) result }
{
    match kind_number(word) {
        1 => Some(Kind::Head),
        2 => Some(Kind::Gain),
        3 => Some(Kind::Coefficient),
        4 => Some(Kind::Constant),
        5 => Some(Kind::Slope),
        6 => Some(Kind::Close),
        7 => Some(Kind::Range),
        8 => Some(Kind::Reading),
        9 => Some(Kind::MapHead),
        10 => Some(Kind::Mask),
        11 => Some(Kind::Divisor),
        12 => Some(Kind::Law),
        13 => Some(Kind::Slack),
        14 => Some(Kind::MapClose),
        _ => None,
    }
}
