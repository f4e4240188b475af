// Runs the engine and the second implementation, `naive`, on the same orders, words and loads. Prints for each part how many comparisons it made, how
// many differed, and how many of the naive answers had each number of the refusal table, so that no part is empty. At each part stands how
// many these must be, where K is the number of words; where the inputs are sampled, the numbers of their answers are counted and not foretold.
#![tactic(auto)]

mod loads;
mod orders;
mod words;

use comparing::report::Report;
use std::io;

// The parts on orders, ranks and coordinates.
fn compare_orders(report: &mut Report<'_, impl Print>) -> io::Result<()> {
    // n! orders, 29 comparisons each. As coordinates, the cells are in range for [1, .., n] alone: n! - 1 are refused 11. A word is near n
    // orders, itself among them: three calls refuse n! - nK orders as lost. All else is done.
    for n in 3..=6 {
        report.part("every order, n = ", n, orders::every(n))?;
    }
    // n! times n! pairs, 4 comparisons each, all done.
    for n in 3..=6 {
        report.part("every pair of orders, n = ", n, orders::every_pair(n))?;
    }
    // 1,250 lists of each length, an order or none, 36 comparisons each. The last length, 16 here, is 2^64 - 1. Where no group has the length,
    // 5,000 are refused 4, as second of a pair; 1,250 are no refusal; the others are refused 1, but for length 2 as three coordinates.
    for k in 0..=16 {
        report.part("lists, length ", k, orders::every_list(orders::length(k)))?;
    }
    // 2,000 sampled orders, one in 16 of them damaged, 32 comparisons each.
    for n in 7..=12 {
        report.part("sampled orders, n = ", n, orders::every_sample(n))?;
    }
    Ok(())
}

// The parts on the code and on loads.
fn compare_symbols(report: &mut Report<'_, impl Print>) -> io::Result<()> {
    // Every word is listed. One in so many is compared, 5 comparisons each of which one is refused 8: K of them to n = 9, then K / 16,
    // K / 256 and K / 4,096, rounded up. Then 16 sampled orders, 3 each, which a lost one refuses 7; and 4 for the end of the list, of which 3
    // are refused 5.
    for n in 3..=12 {
        report.part("words, n = ", n, words::through(n))?;
    }
    // 20 sizes, 12 comparisons each: of the 10 that a group has, 20 new groups, and 20 refused 20; 40 times no order, which is no refusal; all else refused 1.
    report.part("sizes, ", 20, words::every_size())?;
    // One comparison each.
    report.part("steps of a load, ", 4096, loads::steps())?;
    // 64 seeds, one of them 0, and 0 to 40 places with a cut before or after each, 861 in all: a seed of 0 is refused 21, all else is done.
    for n in 3..=12 {
        report.part("loads, n = ", n, loads::every_seed(n))?;
    }
    // 20 sizes, 2 seeds, 861 comparisons each: all refused 1.
    report.part("loads of no size, ", 20, loads::sizes())
}

// The frame of each comparison: the report of this program's parts, and its total.
fn main(rt: HostRuntime) -> io::Result<()> {
    let mut report = Report::new(&rt);
    compare_orders(&mut report)?;
    compare_symbols(&mut report)?;
    report.total()
}
