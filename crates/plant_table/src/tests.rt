// Plant K, whose numbers are worked out by hand, the blank table, and how many questions a table asks its plant.
ghost use Rattle.std.specs.Prelude.{◌≡◌};
ghost use Rattle.plant.specs.Written.{said};
ghost use Rattle.plant.specs.WrittenBounds.{written_kind, written_bounded};

use crate::table::Table;
use plant::interface::Plant;
use plant::load::load;
use plant::written::Written;
use std::cell::Cell;
use std::test::Fail;
use words::counts::Shape;

const WORDS_OF_K: [u32; 24] = [
    0x10010205, 0x20000001, 0x20000001, 0x30000001, 0x30000000, 0x40000004, 0x50000001, 0x30000000,
    0x30000001, 0x40000003, 0x50000000, 0x30000001, 0x30000001, 0x40000006, 0x50000000, 0x3FFFFFFF,
    0x30000000, 0x40000000, 0x50000000, 0x30000000, 0x3FFFFFFF, 0x40000000, 0x50000000, 0x60000017,
];

#[test]
fn numbers_of_plant_k(rt: HostRuntime) -> Result<(), Fail> {
    let table = Table::of(&Written::new(&WORDS_OF_K, load(&WORDS_OF_K)?));
    let counts = Shape {
        commands: 2,
        limits: 5,
        readings: 1,
    };
    if table.shape() != counts {
        return Err(Fail::new("K has 2 commands, 5 limits and 1 reading"));
    }
    assert_eq!(rt; (table.gain(0), table.gain(1)), (1, 1));
    assert_eq!(rt; (table.coefficient(3, 0), table.coefficient(3, 1)), (-1, 0));
    assert_eq!(rt;
        (table.rate(0, 2), table.rate(1, 2), table.rate(1, 0)),
        (6, 0, 1)
    );
    Ok(())
}

#[test]
fn blank_table(rt: HostRuntime) {
    let table = Table::blank();
    assert_eq!(rt;
        (table.gain(0), table.coefficient(0, 0), table.rate(0, 0)),
        (0, 0, 0)
    );
}

// Counts the questions that the plant is asked for numbers.
#[derive(Drop)]
struct Counting<'a> {
    plant: Written<'a>,
    asked: Cell<u32>,
}

impl Plant for Counting<'_> {
    const KIND: u16 = 1;

    ghost kind = { 1 };

    ghost kind_fits = { written_kind };

    ghost meaning = { λ w. said w.plant.words.now w.plant.counts.shape };

    ghost bounded = { λ w. written_bounded w.plant };

    fn kind_number() -> u16
        ensures { result ≡ 1 }
    {
        Self::KIND
    }

    fn commands(&self) -> usize {
        self.plant.commands()
    }

    fn limits(&self) -> usize {
        self.plant.limits()
    }

    fn readings(&self) -> usize {
        self.plant.readings()
    }

    fn gain(&self, i: usize) -> Option<i32> {
        self.asked.set(self.asked.get().wrapping_add(1));
        self.plant.gain(i)
    }

    fn coefficient(&self, j: usize, i: usize) -> Option<i32> {
        self.asked.set(self.asked.get().wrapping_add(1));
        self.plant.coefficient(j, i)
    }

    fn constant(&self, j: usize) -> Option<i32> {
        self.asked.set(self.asked.get().wrapping_add(1));
        self.plant.constant(j)
    }

    fn slope(&self, j: usize, k: usize) -> Option<i32> {
        self.asked.set(self.asked.get().wrapping_add(1));
        self.plant.slope(j, k)
    }
}

#[test]
fn questions_of_plant_k(rt: HostRuntime) -> Result<(), Fail> {
    let counting = Counting {
        plant: Written::new(&WORDS_OF_K, load(&WORDS_OF_K)?),
        asked: Cell::new(0),
    };
    let table = Table::of(&counting);
    assert_eq!(rt; (table.gain(0), counting.asked.get()), (1, 22));
    Ok(())
}

// One command, one limit, no reading.
const SMALLEST: [u32; 5] = [0x10000101, 0x20000001, 0x30000001, 0x40000004, 0x60000004];

#[test]
fn questions_of_the_smallest(rt: HostRuntime) -> Result<(), Fail> {
    let counting = Counting {
        plant: Written::new(&SMALLEST, load(&SMALLEST)?),
        asked: Cell::new(0),
    };
    let table = Table::of(&counting);
    assert_eq!(rt; (table.gain(0), counting.asked.get()), (1, 3));
    Ok(())
}
