// Worked numbers.
use crate::fill::fill;
use plant::load::load;
use plant::written::Written;
use plant_table::table::Table;
use std::test::Fail;

const WORDS_OF_K: [u32; 24] = [
    0x10010205, 0x20000001, 0x20000001, 0x30000001, 0x30000000, 0x40000004, 0x50000001, 0x30000000,
    0x30000001, 0x40000003, 0x50000000, 0x30000001, 0x30000001, 0x40000006, 0x50000000, 0x3FFFFFFF,
    0x30000000, 0x40000000, 0x50000000, 0x30000000, 0x3FFFFFFF, 0x40000000, 0x50000000, 0x60000017,
];

// The second gain of plant K, and the word of a gain of -1.
const SECOND_GAIN: usize = 2;

const GAIN_OF_MINUS_ONE: u32 = 0x2FFFFFFF;

// The words of a tableau with 2 commands, 5 limits and 1 reading.
const SIZE: usize = 35;

// The first tableau of a plant with the counts of plant K.
fn first_tableau(plant_words: &[u32]) -> Result<[i64; SIZE], Fail> {
    let table = Table::of(&Written::new(plant_words, load(plant_words)?));
    let shape = table.shape();
    if shape.commands != 2 || shape.limits != 5 || shape.readings != 1 {
        return Err(Fail::new("2 commands, 5 limits and 1 reading are due"));
    }
    let mut words = [0; SIZE];
    fill(&table, &mut words);
    Ok(words)
}

#[test]
fn first_tableau_of_plant_k(rt: HostRuntime) -> Result<(), Fail> {
    let words = first_tableau(&WORDS_OF_K)?;
    assert!(rt;
        words
            == [
                1, 5, 6, 1, 1, 0, 1, 0, 1, -1, 0, 1, 0, 1, 0, 1, 1, 0, -1, 0, 0, 0, 4, 3, 6, 0, 0,
                0, 0, 0, 1, 0, 0, 0, 0,
            ]
    );
    Ok(())
}

// The row of the second artificial limit is turned.
#[test]
fn first_tableau_at_a_negative_gain(rt: HostRuntime) -> Result<(), Fail> {
    let mut plant_words = WORDS_OF_K;
    plant_words[SECOND_GAIN] = GAIN_OF_MINUS_ONE;
    let words = first_tableau(&plant_words)?;
    assert!(rt;
        words
            == [
                1, 5, 6, 1, 1, 0, 1, 0, 1, -1, 0, 1, 0, -1, 0, -1, -1, 0, 1, 0, 0, 0, 4, 3, 6, 0,
                0, 0, 0, 0, 1, 0, 0, 0, 0,
            ]
    );
    Ok(())
}
