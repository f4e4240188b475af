// How many comparisons were made, how many differed, and how many of the naive answers had each number of the refusal table: 0 to 26, the
// highest of document 02.
use order::{Refusal, outcome_number};
use std::fmt;
use std::ops::Add;

// The refusal tables of documents 01 and 02, written a second time: number k + 1 at index k. The numbers of the engine are held against it.
const TABLE: [Refusal; 21] = [
    Refusal::Size,
    Refusal::NoGroup,
    Refusal::NoCell,
    Refusal::NoOrder,
    Refusal::NoSymbol,
    Refusal::Blank,
    Refusal::Lost,
    Refusal::Worn,
    Refusal::CapUp,
    Refusal::ListShort,
    Refusal::Coordinate,
    Refusal::BadRecord,
    Refusal::RunLimit,
    Refusal::NoRaise,
    Refusal::RoomShort,
    Refusal::NoPage,
    Refusal::Measurement,
    Refusal::RankSizes,
    Refusal::Spent,
    Refusal::Endurance,
    Refusal::Seed,
];

#[derive(Clone, Copy, PartialEq, Eq)]
pub struct Tally {
    pub made: u64,
    pub differed: u64,
    pub given: [u64; 27],
}

impl Default for Tally {
    fn default() -> Self {
        Tally {
            made: 0,
            differed: 0,
            given: [0; 27],
        }
    }
}

impl Add for Tally {
    type Output = Tally;

    fn add(self, other: Tally) -> Tally {
        let mut given = self.given;
        for (sum, more) in given.iter_mut().zip(other.given) {
            *sum = sum.wrapping_add(more);
        }
        Tally {
            made: self.made.wrapping_add(other.made),
            differed: self.differed.wrapping_add(other.differed),
            given,
        }
    }
}

impl fmt::Display for Tally {
    fn fmt<W: fmt::Write>(&self, f: &mut fmt::Formatter<W>) -> fmt::Result {
        let Tally {
            made,
            differed,
            given,
        } = self;
        let done = given[0];
        write!(f, "{made} compared, {differed} differed; 0: {done}")?;
        for (number, many) in given.iter().enumerate().skip(1) {
            if *many != 0 {
                write!(f, ", {number}: {many}")?;
            }
        }
        Ok(())
    }
}

// The number of an answer by that table: 0 is done.
pub fn number_of(answer: Result<(), Refusal>) -> u8 {
    match answer {
        Ok(()) => 0,
        Err(refusal) => match TABLE.iter().position(|listed| *listed == refusal) {
            Some(k) => k as u8 + 1,
            None => 0,
        },
    }
}

impl Tally {
    // One comparison of an answer of the engine and the naive one, and of the number that the engine gives its refusal.
    pub fn compare<T: PartialEq + Copy>(
        &mut self,
        engine: Result<T, Refusal>,
        naive: Result<T, Refusal>,
    ) {
        self.compare_and(engine, naive, true);
    }

    // The same, where something else must hold too, as of a list that was lent.
    pub fn compare_and<T: PartialEq + Copy>(
        &mut self,
        engine: Result<T, Refusal>,
        naive: Result<T, Refusal>,
        also: bool,
    ) {
        let given = outcome_number(engine.map(|_| ()));
        let number = number_of(naive.map(|_| ()));
        self.note(number, engine == naive && given == number && also);
    }

    // One comparison more, where the naive answer has this number.
    pub fn note(&mut self, number: u8, same: bool) {
        self.made = self.made.wrapping_add(1);
        if !same {
            self.differed = self.differed.wrapping_add(1);
        }
        if let Some(many) = self.given.get_mut(usize::from(number)) {
            *many = many.wrapping_add(1);
        }
    }
}
