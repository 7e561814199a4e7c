// Expected values are worked out by hand.
use crate::words_of_k::WORDS;
use plant::interface::Plant;
use plant::load::load;
use plant::range::range;
use plant::ranged::Ranged;
use plant::written::Written;
use std::process::Abort;
use std::test::Fail;
use words::kind::Kind;
use words::part::Part;
use words::payload::{kind_number, payload, word_of};
use words::reader::Reader;
use words::refusal::{Refusal, Shown};

// The number, the layer and the place of a refusal.
fn told(refusal: Refusal) -> (u32, u32, usize) {
    (
        refusal.number(),
        u32::from(refusal.layer()),
        refusal.place(),
    )
}

#[test]
fn payloads_at_both_ends(rt: HostRuntime) {
    let coefficient = u32::from(Kind::Coefficient);
    assert_eq!(rt; payload(0x37FFFFFF), 134_217_727);
    assert_eq!(rt; payload(0x38000000), -134_217_728);
    assert_eq!(rt; payload(0x3FFFFFFF), -1);
    assert_eq!(rt; kind_number(0x3FFFFFFF), coefficient);
    assert_eq!(rt; word_of(coefficient, -1), Some(0x3FFFFFFF));
    assert_eq!(rt; word_of(coefficient, 134_217_727), Some(0x37FFFFFF));
    assert_eq!(rt; word_of(coefficient, -134_217_728), Some(0x38000000));
    assert_eq!(rt; word_of(coefficient, 134_217_728), None);
    assert_eq!(rt; word_of(16, 0), None);
}

// The first word of a part, and its place.
fn first_of(part: Part) -> (u32, usize) {
    match part {
        Part::Head(words, place)
        | Part::Gains(words, place)
        | Part::Limit(words, place)
        | Part::Close(words, place) => { (words.first().copied().unwrap_or(0), place) }
    }
}

#[test]
fn parts_of_the_smallest_plant(rt: HostRuntime) -> Result<(), Fail> {
    let words = [0x10000101, 0x20000001, 0x30000002, 0x40000003, 0x60000004];
    let mut reader = Reader::new(&words);
    let expected = [
        (0x10000101, 0),
        (0x20000001, 1),
        (0x30000002, 2),
        (0x60000004, 4),
    ];
    for want in expected {
        let part = reader.next()?.ok_or("a part is due")?;
        assert_eq!(rt; first_of(part), want);
    }
    assert!(rt; matches!(reader.next(), Ok(None)));
    Ok(())
}

#[test]
fn a_refused_reader_stays(rt: HostRuntime) -> Result<(), Fail> {
    let words = [0x10000101, 0x30000001, 0x30000002];
    let mut reader = Reader::new(&words);
    assert!(rt; reader.next().is_ok());
    for _ in 0..2 {
        assert_eq!(rt; reader.next().err(), Some(Refusal::WrongKind(1)));
    }
    Ok(())
}

#[test]
fn plant_k_answers(rt: HostRuntime) -> Result<(), Fail> {
    let k = Written::new(&WORDS, load(&WORDS)?);
    assert_eq!(rt; (k.commands(), k.limits(), k.readings()), (2, 5, 1));
    assert_eq!(rt;
        (k.gain(0), k.gain(1), k.gain(2), k.gain(3)),
        (None, Some(1), Some(1), None)
    );
    assert_eq!(rt;
        (k.coefficient(4, 1), k.coefficient(4, 2)),
        (Some(-1), Some(0))
    );
    assert_eq!(rt;
        (
            k.coefficient(0, 1),
            k.coefficient(6, 1),
            k.coefficient(1, 3),
        ),
        (None, None, None)
    );
    assert_eq!(rt;
        (k.constant(1), k.constant(3), k.constant(6)),
        (Some(4), Some(6), None)
    );
    assert_eq!(rt;
        (k.slope(1, 1), k.slope(2, 1), k.slope(1, 2)),
        (Some(1), Some(0), None)
    );
    Ok(())
}

// The refusal of K's words with one of them changed.
fn damaged(rt: &impl Abort, place: usize, word: u32) -> Result<Refusal, Fail> {
    let mut words = WORDS;
    assert!(rt; place < words.len());
    words[place] = word;
    Ok(load(&words).err().ok_or("damaged words were accepted")?)
}

#[test]
fn damaged_words_of_k(rt: HostRuntime) -> Result<(), Fail> {
    assert_eq!(rt; load(&WORDS[0..23]).err().map(told), Some((1, 1, 23)));
    assert_eq!(rt; told(damaged(&rt, 3, 0x40000003)?), (2, 1, 3));
    assert_eq!(rt; told(damaged(&rt, 0, 0x10010505)?), (3, 1, 0));
    assert_eq!(rt; told(damaged(&rt, 5, 0x40002711)?), (4, 1, 5));
    assert_eq!(rt; told(damaged(&rt, 23, 0x60000018)?), (5, 1, 23));
    Ok(())
}

#[test]
fn a_range_over_a_range(rt: HostRuntime) -> Result<(), Fail> {
    let k = Written::new(&WORDS, load(&WORDS)?);
    let table = range(&k, &[1, 0], &[5, 2])?;
    let once = Ranged::new(k, table);
    assert_eq!(rt;
        (once.commands(), once.limits(), once.readings()),
        (2, 9, 1)
    );
    assert_eq!(rt;
        (
            once.coefficient(6, 1),
            once.coefficient(6, 2),
            once.constant(6),
        ),
        (Some(1), Some(0), Some(5))
    );
    assert_eq!(rt;
        (
            once.coefficient(8, 1),
            once.coefficient(9, 2),
            once.constant(8),
        ),
        (Some(-1), Some(-1), Some(-1))
    );
    assert_eq!(rt;
        (once.slope(6, 1), once.slope(1, 1), once.constant(10)),
        (Some(0), Some(1), None)
    );
    let table = range(&once, &[-3, -4], &[9, 10_000])?;
    let twice = Ranged::new(once, table);
    assert_eq!(rt;
        (twice.limits(), twice.constant(6), twice.constant(10)),
        (13, Some(5), Some(9))
    );
    assert_eq!(rt;
        (twice.constant(11), twice.constant(12), twice.constant(13)),
        (Some(10_000), Some(3), Some(4))
    );
    let refusal = range(&twice, &[0, 0], &[0, 0]).err();
    assert_eq!(rt;
        refusal.map(told),
        Some((6, 2, 0)),
        "17 limits are too many"
    );
    Ok(())
}

#[test]
fn ranges_are_judged_in_order(rt: HostRuntime) -> Result<(), Fail> {
    let k = Written::new(&WORDS, load(&WORDS)?);
    let cases: [(&[i32], &[i32], (u32, u32, usize)); 5] = [
        (&[0, 10_001], &[10_001], (4, 1, 2)),
        (&[9, 0, 0], &[0, -10_001], (4, 1, 2)),
        (&[9], &[0, 0], (6, 2, 0)),
        (&[9, 9], &[0, 0], (6, 2, 1)),
        (&[-10_000, 1], &[10_000, 0], (6, 2, 2)),
    ];
    for (lows, highs, want) in cases {
        assert_eq!(rt; range(&k, lows, highs).err().map(told), Some(want));
    }
    assert!(rt; range(&k, &[-10_000, 3], &[10_000, 3]).is_ok());
    Ok(())
}

#[test]
fn no_command_is_told_by_its_layer(rt: HostRuntime) {
    assert_eq!(rt; told(Refusal::NoCommand(Shown::ByLimit(4))), (14, 3, 4));
    assert_eq!(rt; told(Refusal::NoCommand(Shown::ByMap)), (14, 4, 0));
    assert_eq!(rt; told(Refusal::PlaceShort(18)), (10, 4, 18));
}
