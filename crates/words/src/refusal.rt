// Every way in which a call can say no.
ghost use Rattle.std.specs.Prelude.{◌≡◌, Some};
ghost use Rattle.words.specs.Refusals.{number_of, layer_of, level, place_of, refusal_text};

use std::fmt;

// The layer that a refusal comes from, numbered from the lowest up.
#[derive(Clone, Copy, PartialEq, Eq, Debug)]
pub enum Layer {
    Words = 1,
    Plant = 2,
    Tableau = 3,
    Map = 4,
}

// What shows that no command keeps every limit: a limit that finds no leaving row, or a finished map without a region there.
// An optional limit would not say what the map shows.
#[derive(Clone, Copy, PartialEq, Eq, Debug)]
pub enum Shown {
    ByLimit(usize),
    ByMap,
}

// The fifteen refusals in the order of their numbers, each with its place where that is not always 0.
#[derive(Clone, Copy, PartialEq, Eq, Debug)]
pub enum Refusal {
    // The words end before the close: their number.
    Short(usize),
    // A word of another kind than the one due: its place.
    WrongKind(usize),
    // The head's counts are out of bounds, or its spare bits are set.
    Counts,
    // A number out of bounds: the place of its word, or its position in a list of lows or highs.
    Value(usize),
    // A close with a wrong payload, or the first word after the close: its place.
    Close(usize),
    // Lows and highs of the wrong number, or too many limits: 0; a low above its high: the command.
    Range(usize),
    // A map that has a corner is started.
    Begun,
    // A map without a corner is asked.
    NotBegun,
    // Readings of the wrong number: 0; a reading out of bounds: which.
    Reading(usize),
    // The place lent is too short: what is needed.
    PlaceShort(usize),
    // No record is left for a corner: the entering limit, or 0.
    Full(usize),
    // The tableau after an exchange is out of width: the entering limit.
    Width(usize),
    // A free direction is better than standing still.
    NoBest,
    // No command keeps every limit.
    NoCommand(Shown),
    // No region of an unfinished map holds the reading.
    NotYet,
}

impl From<Layer> for u32 {
    ghost from_gives = { λ layer number. number ≡ level layer };

    fn from(layer: Layer) -> u32 {
        layer as u32
    }
}

impl Refusal {
    // By cases: variants with a place have no number for `as`.
    pub fn number(self) -> u32
        ensures { result ≡ number_of self }
    {
        match self {
            Refusal::Short(_) => 1,
            Refusal::WrongKind(_) => 2,
            Refusal::Counts => 3,
            Refusal::Value(_) => 4,
            Refusal::Close(_) => 5,
            Refusal::Range(_) => 6,
            Refusal::Begun => 7,
            Refusal::NotBegun => 8,
            Refusal::Reading(_) => 9,
            Refusal::PlaceShort(_) => 10,
            Refusal::Full(_) => 11,
            Refusal::Width(_) => 12,
            Refusal::NoBest => 13,
            Refusal::NoCommand(_) => 14,
            Refusal::NotYet => 15,
        }
    }

    pub fn layer(self) -> Layer
        ensures { result ≡ layer_of self }
    {
        match self {
            Refusal::Short(_)
            | Refusal::WrongKind(_)
            | Refusal::Counts
            | Refusal::Value(_)
            | Refusal::Close(_) => { Layer::Words }
            Refusal::Range(_) => Layer::Plant,
            Refusal::Width(_) | Refusal::NoBest | Refusal::NoCommand(Shown::ByLimit(_)) =>
                Layer::Tableau,
            Refusal::Begun
            | Refusal::NotBegun
            | Refusal::Reading(_)
            | Refusal::PlaceShort(_)
            | Refusal::Full(_)
            | Refusal::NoCommand(Shown::ByMap)
            | Refusal::NotYet => Layer::Map,
        }
    }

    pub fn place(self) -> usize
        ensures { result ≡ place_of self }
    {
        match self {
            Refusal::Short(place)
            | Refusal::WrongKind(place)
            | Refusal::Value(place)
            | Refusal::Close(place)
            | Refusal::Range(place)
            | Refusal::Reading(place)
            | Refusal::PlaceShort(place)
            | Refusal::Full(place)
            | Refusal::Width(place)
            | Refusal::NoCommand(Shown::ByLimit(place)) => place,
            Refusal::Counts
            | Refusal::Begun
            | Refusal::NotBegun
            | Refusal::NoBest
            | Refusal::NoCommand(Shown::ByMap)
            | Refusal::NotYet => 0,
        }
    }
}

// Its number, the number of its layer and its place, with blanks between them.
impl fmt::Display for Refusal {
    ghost output = { λ refusal. Some (refusal_text refusal) };

    fn fmt<W: fmt::Write>(&self, f: &mut fmt::Formatter<W>) -> fmt::Result {
        let number = self.number();
        let layer = u32::from(self.layer());
        let place = self.place();
        write!(f, "{number} {layer} {place}")
    }
}
