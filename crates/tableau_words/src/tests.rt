// Worked numbers.
ghost use Rattle.std.specs.Prelude.{◌≡◌, length, IfOk};
ghost use Rattle.exact.specs.Bounds.{AllInWidth};

use crate::exchange::exchange;
use crate::reading::{Reading, TableauAt};
use crate::view::Tableau;
use std::test::Fail;
use words::counts::{Counts, Shape};

fn counts_of(shape: Shape) -> Result<Counts, Fail>
    ensures { IfOk result (λ c. c.shape ≡ shape) }
{
    match Counts::new(shape) {
        Some(counts) => Ok(counts),
        None => Err(Fail::new("the counts are those of a plant")),
    }
}

const PLANT_K: Shape = Shape {
    commands: 2,
    limits: 5,
    readings: 1,
};

// Plant K at the limits 1 and 3.
const ONE_AND_THREE: [i64; 35] = [
    1, 0, 2, 0, 1, -1, 1, -1, 0, -1, 1, 1, 0, 1, 0, 1, 1, 0, -1, -6, -4, -2, 0, 1, 0, 4, 2, 0, -1,
    1, 0, 1, 0, 1, -1,
];

// Plant K at the limits 1 and 2.
const ONE_AND_TWO: [i64; 35] = [
    1, 0, 1, 1, 1, 0, 1, 0, 1, -1, 0, 1, 0, 1, 0, 1, 1, 0, -1, -7, -4, -3, 0, 0, -1, 4, 3, -1, -1,
    0, 0, 0, -1, 1, 0,
];

// Plant K at the limits 1 and 3, at a reading.
fn one_and_three_at(numbers: &[i64]) -> Result<TableauAt<'_>, Fail>
    requires long { length numbers.now ≡ 1 }
    requires wide { AllInWidth numbers.now }
    ensures { IfOk result (λ t. t.reading.counts.shape ≡ PLANT_K) }
{
    let counts = counts_of(PLANT_K)?;
    Ok(TableauAt {
        reading: Reading { counts, numbers },
        words: &ONE_AND_THREE,
    })
}

#[test]
fn limit_2_enters_plant_k(rt: HostRuntime) -> Result<(), Fail> {
    let counts = counts_of(PLANT_K)?;
    let mut words = ONE_AND_THREE;
    let tableau = Tableau {
        counts,
        words: &words,
    };
    assert!(rt; matches!(tableau.leaving(1), Some(1)));
    assert!(rt; exchange(&mut words, counts, 1, 1).is_ok());
    assert!(rt; words == ONE_AND_TWO);
    Ok(())
}

#[test]
fn limit_3_enters_again(rt: HostRuntime) -> Result<(), Fail> {
    let counts = counts_of(PLANT_K)?;
    let mut words = ONE_AND_TWO;
    assert!(rt; exchange(&mut words, counts, 1, 2).is_ok());
    assert!(rt; words == ONE_AND_THREE);
    Ok(())
}

#[test]
fn no_row_for_limit_4(rt: HostRuntime) -> Result<(), Fail> {
    let counts = counts_of(PLANT_K)?;
    let tableau = Tableau {
        counts,
        words: &ONE_AND_THREE,
    };
    assert!(rt; tableau.leaving(3).is_none());
    Ok(())
}

// The gains over the entries are equal, and the first entries decide.
#[test]
fn second_row_leaves_on_equal_first_ratios(rt: HostRuntime) -> Result<(), Fail> {
    let counts = counts_of(PLANT_K)?;
    let tableau = Tableau {
        counts,
        words: &ONE_AND_TWO,
    };
    assert!(rt; matches!(tableau.leaving(2), Some(1)));
    Ok(())
}

const TWO_LIMITS: Shape = Shape {
    commands: 2,
    limits: 2,
    readings: 0,
};

// 9973 v1 ≤ 5000 and 9967 v2 ≤ 5000, at limit 1 and the second artificial limit.
const PRIMES: [i64; 18] = [
    9973, 0, 3, 1, 1, 0, 9973, 0, 9973, 0, 9973, 0, 99_400_891, -5000, -5000, 0, 0, 49_865_000,
];

// The greatest divisor is that of the denominator and the rows.
#[test]
fn primes_multiply(rt: HostRuntime) -> Result<(), Fail> {
    let counts = counts_of(TWO_LIMITS)?;
    let mut words = PRIMES;
    assert!(rt; exchange(&mut words, counts, 1, 1).is_ok());
    assert!(rt;
        words
            == [
                99_400_891,
                0,
                1,
                9967,
                9967,
                0,
                99_400_891,
                0,
                9973,
                0,
                9973,
                0,
                99_400_891,
                -99_700_000,
                -49_835_000,
                -49_865_000,
                0,
                0,
            ]
    );
    Ok(())
}

// The same with the constants 10,000.
const GREATER_CONSTANTS: [i64; 18] = [
    9973, 0, 3, 1, 1, 0, 9973, 0, 9973, 0, 9973, 0, 99_400_891, -10_000, -10_000, 0, 0, 99_730_000,
];

#[test]
fn gain_out_of_width(rt: HostRuntime) -> Result<(), Fail> {
    let counts = counts_of(TWO_LIMITS)?;
    let mut words = GREATER_CONSTANTS;
    assert!(rt; exchange(&mut words, counts, 1, 1).is_err());
    Ok(())
}

const THREE_LIMITS: Shape = Shape {
    commands: 2,
    limits: 3,
    readings: 0,
};

// 2 v1 ≤ 4, 2 v2 ≤ 6 and v1 + v2 ≤ 4 at the limits 1 and 2: the denominator is 2, and so it stays.
const HALVES: [i64; 21] = [
    2, 0, 1, 1, 1, 0, 2, 0, 1, 1, 0, 1, 0, 2, 1, -10, -4, -6, 0, 0, -2,
];

#[test]
fn divisor_is_no_multiple_of_the_denominator(rt: HostRuntime) -> Result<(), Fail> {
    let counts = counts_of(THREE_LIMITS)?;
    let mut words = HALVES;
    let tableau = Tableau {
        counts,
        words: &words,
    };
    assert!(rt; matches!(tableau.leaving(2), Some(1)));
    assert!(rt; exchange(&mut words, counts, 1, 2).is_ok());
    assert!(rt;
        words
            == [
                2, 0, 2, 0, 1, -1, 2, -2, 0, 2, 0, 2, 0, 4, 2, -8, -4, -4, 0, 4, 0,
            ]
    );
    Ok(())
}

// The slack of limit 2 is 1 + r.
#[test]
fn slack_of_limit_2(rt: HostRuntime) -> Result<(), Fail> {
    assert!(rt; one_and_three_at(&[-2])?.slack(1) == -1);
    Ok(())
}

#[test]
fn limit_2_is_least_willing(rt: HostRuntime) -> Result<(), Fail> {
    assert!(rt; matches!(one_and_three_at(&[-2])?.least_willing(), Some(1)));
    Ok(())
}

// Slack 0, and limit 1 in the basis has a positive number in column 5.
#[test]
fn limit_5_is_willing_at_slack_0(rt: HostRuntime) -> Result<(), Fail> {
    assert!(rt; matches!(one_and_three_at(&[2])?.least_willing(), Some(4)));
    Ok(())
}

// Slack 0, and limit 1 in the basis has a negative number in column 2.
#[test]
fn limit_2_is_not_willing_at_slack_0(rt: HostRuntime) -> Result<(), Fail> {
    assert!(rt; !one_and_three_at(&[-1])?.willing(1));
    Ok(())
}

#[test]
fn none_is_willing(rt: HostRuntime) -> Result<(), Fail> {
    assert!(rt; one_and_three_at(&[0])?.least_willing().is_none());
    Ok(())
}
