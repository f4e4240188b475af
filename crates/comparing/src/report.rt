// The lines that are printed, one for each part.
use crate::tally::Tally;
use std::io;

// What prints, and all parts so far.
#[derive_where(Clone, Copy)]
pub struct Report<'a, R> {
    pub rt: &'a R,
    pub all: Tally,
    pub parts: u64,
}

impl<'a, R: Print> Report<'a, R> {
    pub fn new(rt: &'a R) -> Self {
        Report {
            rt,
            all: Tally::default(),
            parts: 0,
        }
    }

    // The line of a part, which counts in the totals: its name, its size, how many comparisons it made, how many differed, and the numbers that were
    // given.
    pub fn part(&mut self, name: &str, size: usize, t: Tally) -> io::Result<()> {
        println!(self.rt; "{name}{size}: {t}")?;
        self.all = self.all + t;
        self.parts = self.parts.wrapping_add(1);
        Ok(())
    }

    pub fn total(&self) -> io::Result<()> {
        let Report { rt, all, parts } = self;
        println!(rt; "all parts, {parts}: {all}")
    }
}
