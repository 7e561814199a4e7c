// Worked numbers.
ghost use Rattle.std.specs.Prelude.{◌≡◌, IfOk};

use crate::enter::{NotEntered, enter};
use crate::read::mask;
use std::test::Fail;
use tableau_words::view::Tableau;
use words::counts::{Counts, Shape};

const PLANT_K: Shape = Shape {
    commands: 2,
    limits: 5,
    readings: 1,
};

fn plant_k() -> Result<Counts, Fail>
    ensures { IfOk result (λ c. c.shape ≡ PLANT_K) }
{
    match Counts::new(PLANT_K) {
        Some(counts) => Ok(counts),
        None => Err(Fail::new("the counts are those of a plant")),
    }
}

// Plant K at the limits 1 and 3.
const ONE_AND_THREE: [i64; 35] = [
    1, 0, 2, 0, 1, -1, 1, -1, 0, -1, 1, 1, 0, 1, 0, 1, 1, 0, -1, -6, -4, -2, 0, 1, 0, 4, 2, 0, -1,
    1, 0, 1, 0, 1, -1,
];

// Plant K at the limits 1 and 2.
const ONE_AND_TWO: [i64; 35] = [
    1, 0, 1, 1, 1, 0, 1, 0, 1, -1, 0, 1, 0, 1, 0, 1, 1, 0, -1, -7, -4, -3, 0, 0, -1, 4, 3, -1, -1,
    0, 0, 0, -1, 1, 0,
];

#[test]
fn limit_2_enters_plant_k(rt: HostRuntime) -> Result<(), Fail> {
    let counts = plant_k()?;
    let mut words = ONE_AND_THREE;
    assert!(rt; matches!(enter(&mut words, counts, 1), Ok(2)));
    assert!(rt; words == ONE_AND_TWO);
    Ok(())
}

#[test]
fn limit_4_finds_no_row(rt: HostRuntime) -> Result<(), Fail> {
    let counts = plant_k()?;
    let mut words = ONE_AND_THREE;
    assert!(rt; matches!(enter(&mut words, counts, 3), Err(NotEntered::NoRow)));
    assert!(rt; words == ONE_AND_THREE);
    Ok(())
}

#[test]
fn mask_of_one_and_three(rt: HostRuntime) -> Result<(), Fail> {
    let counts = plant_k()?;
    assert!(rt;
        mask(Tableau {
            counts,
            words: &ONE_AND_THREE
        }) == 0b101
    );
    Ok(())
}
