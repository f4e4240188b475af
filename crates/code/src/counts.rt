// The counts of the table for one size.
ghost use Rattle.std.specs.Prelude.{◌≡◌, ◌≤◌, T};
ghost use Rattle.code.specs.Words.{K};
ghost use Rattle.code.specs.Tails.{tails, Entry, Block};
ghost use Rattle.code.specs.Table.{table_right};

use crate::table::{self, Table};
use order::Size;

// For each start a row of 2n - 1 counts, by residue. n and its bounds are those of an `order::Size`, taken apart: the contracts speak of n.
#[derive(Clone, Copy)]
pub struct Counts {
    pub n: usize,
    pub rows: &'static [u32],
    ghost least: { 3 ≤ n },
    ghost most: { n ≤ 12 },
    ghost block: { Block n rows.now },
}

impl Counts {
    // The block of a size.
    pub fn new(size: Size) -> Counts
        ensures { result.n ≡ size.cells }
    {
        let n = size.cells;
        let table = tail_counts();
        // Four matches of at most three sizes: one of ten would be a table of ten addresses, which whoever loads the archive for C would have to relocate.
        let rows: &'static [u32] = if n < 6 {
            match n {
                3 => &table.of_3,
                4 => &table.of_4,
                _ => &table.of_5,
            }
        } else if n < 9 {
            match n {
                6 => &table.of_6,
                7 => &table.of_7,
                _ => &table.of_8,
            }
        } else if n < 11 {
            match n {
                9 => &table.of_9,
                _ => &table.of_10,
            }
        } else {
            match n {
                11 => &table.of_11,
                _ => &table.of_12,
            }
        };
        Counts { n, rows }
    }

    // K(n): the first count. By size, and not of the rows: these are numbers, and so one table of them with no address.
    pub fn words(self) -> u32
        ensures { result ≡ K self.n }
    {
        let table = tail_counts();
        match self.n {
            3 => table.of_3[0],
            4 => table.of_4[0],
            5 => table.of_5[0],
            6 => table.of_6[0],
            7 => table.of_7[0],
            8 => table.of_8[0],
            9 => table.of_9[0],
            10 => table.of_10[0],
            11 => table.of_11[0],
            _ => table.of_12[0],
        }
    }

    // The number of ways to choose coordinates i to n - 1 whose weighted sum leaves r.
    pub(crate) fn tail(self, i: usize, r: usize) -> u32
        requires { Entry self.n i r }
        ensures { result ≡ tails self.n i r }
    {
        self.rows[(i - 1) * (2 * self.n - 1) + r]
    }
}

// The table of counts, which passes the test of its recurrence.
fn tail_counts() -> &'static Table
    ensures { T (table_right result.now) }
{
    &table::COUNTS
}
