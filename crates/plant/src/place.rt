// Places that count from 1.
ghost use Rattle.plant.specs.Tables.{Found};

// The place from 0 of what counts from 1, within a count.
pub(crate) fn from_zero(place: usize, count: usize) -> Option<usize>
    ensures { Found count place result }
{
    place.checked_sub(1).filter(|place| *place < count)
}
