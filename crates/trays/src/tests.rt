// Worked numbers.
ghost use Rattle.std.specs.Prelude.{◌≡◌, IfOk};

use crate::command::command;
use crate::direction::direction;
use crate::tray::{TRAY, lay};
use crate::weights::weights;
use std::test::Fail;
use tableau_words::reading::{Reading, TableauAt};
use tableau_words::view::Tableau;
use words::counts::{Counts, Shape};

fn counts_of(shape: Shape) -> Result<Counts, Fail>
    ensures { IfOk result (λ c. c.shape ≡ shape) }
{
    match Counts::new(shape) {
        Some(counts) => Ok(counts),
        None => Err(Fail::new("the counts are those of a plant")),
    }
}

const PLANT_K: Shape = Shape {
    commands: 2,
    limits: 5,
    readings: 1,
};

// Plant K at the limits 1 and 3.
const ONE_AND_THREE: [i64; 35] = [
    1, 0, 2, 0, 1, -1, 1, -1, 0, -1, 1, 1, 0, 1, 0, 1, 1, 0, -1, -6, -4, -2, 0, 1, 0, 4, 2, 0, -1,
    1, 0, 1, 0, 1, -1,
];

#[test]
fn command_of_plant_k(rt: HostRuntime) -> Result<(), Fail> {
    let counts = counts_of(PLANT_K)?;
    let reading = Reading {
        counts,
        numbers: &[0],
    };
    let tableau = TableauAt {
        reading,
        words: &ONE_AND_THREE,
    };
    assert!(rt; command(tableau) == [4, 2, 1, 6, 0, 0, 0, 0, 0, 0, 0, 0, 0, 0, 0, 0, 0, 0]);
    Ok(())
}

const ONE_LIMIT: Shape = Shape {
    commands: 1,
    limits: 1,
    readings: 0,
};

// Gain 1 and 2 v ≤ 3.
const THREE_HALVES: [i64; 8] = [2, 0, 1, 1, 2, -3, -3, 0];

#[test]
fn command_of_three_halves(rt: HostRuntime) -> Result<(), Fail> {
    let counts = counts_of(ONE_LIMIT)?;
    let reading = Reading {
        counts,
        numbers: &[],
    };
    let tableau = TableauAt {
        reading,
        words: &THREE_HALVES,
    };
    assert!(rt; command(tableau) == [3, 2, 3, 0, 0, 0, 0, 0, 0, 0, 0, 0, 0, 0, 0, 0, 0, 0]);
    Ok(())
}

// Gain 3 and 2 v ≤ 4.
const FOUR_HALVES: [i64; 8] = [2, 0, 3, 1, 2, -12, -4, 0];

#[test]
fn command_of_four_halves(rt: HostRuntime) -> Result<(), Fail> {
    let counts = counts_of(ONE_LIMIT)?;
    let reading = Reading {
        counts,
        numbers: &[],
    };
    let tableau = TableauAt {
        reading,
        words: &FOUR_HALVES,
    };
    assert!(rt; command(tableau) == [2, 1, 6, 0, 0, 0, 0, 0, 0, 0, 0, 0, 0, 0, 0, 0, 0, 0]);
    Ok(())
}

// The numbers in the column of limit 2 are -1 and 1.
#[test]
fn weights_of_limit_2(rt: HostRuntime) -> Result<(), Fail> {
    let counts = counts_of(PLANT_K)?;
    let tableau = Tableau {
        counts,
        words: &ONE_AND_THREE,
    };
    assert!(rt; weights(tableau, 1) == [1, 1, -1, 0, 0, 0, 0, 0, 0, 0, 0, 0, 0, 0, 0, 0, 0, 0]);
    Ok(())
}

const TWO_LIMITS: Shape = Shape {
    commands: 2,
    limits: 2,
    readings: 0,
};

// 9973 v1 ≤ 5000 and 9967 v2 ≤ 5000, at limit 1 and the second artificial limit.
const PRIMES: [i64; 18] = [
    9973, 0, 3, 1, 1, 0, 9973, 0, 9973, 0, 9973, 0, 99_400_891, -5000, -5000, 0, 0, 49_865_000,
];

#[test]
fn direction_of_the_artificial_limit(rt: HostRuntime) -> Result<(), Fail> {
    let counts = counts_of(TWO_LIMITS)?;
    let tableau = Tableau {
        counts,
        words: &PRIMES,
    };
    assert!(rt; direction(tableau) == [0, 9973, 0, 0, 0, 0, 0, 0, 0, 0, 0, 0, 0, 0, 0, 0, 0, 0]);
    Ok(())
}

#[test]
fn a_longer_tray(rt: HostRuntime) {
    let mut tray = [7; TRAY + 1];
    lay(&mut tray, &[5; TRAY]);
    assert!(rt; tray == [5, 5, 5, 5, 5, 5, 5, 5, 5, 5, 5, 5, 5, 5, 5, 5, 5, 5, 7]);
}
