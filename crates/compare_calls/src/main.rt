// Runs the engine and the second implementation, `naive`, on the same groups, lists of calls and runs. Prints for each part how many
// comparisons it made, how many differed, and how many of the naive answers had each number of the refusal table, so that no part is empty. At
// each part stands how many these must be; where runs are sampled, the numbers of their answers are counted and not foretold.
#![tactic(auto)]

mod lent;
mod machine;
mod windows;

use comparing::report::Report;
use std::io;

// The parts on groups and lists of calls.
fn compare_groups(report: &mut Report<'_, impl Print>) -> io::Result<()> {
    // 27 levels, 64 caps, 2 marks, and 0 to 3 pulses used of cell 1, which can take 3; 22 calls each. Refused are: cells 0 and 4, leaked and worn, 3;
    // symbol 2, 5; a scrub or read of a group that is not marked, 6; a cap of 0 worn to 1, 9; a store, scrub or write 8, or else 19.
    report.part("every small group, n = ", 3, machine::every_small())?;
    // The same groups with 0 to 3 pulses used of each cell, and 6 orders. With 27 levels, of the 64 caps those are worn that are below a new level, and of
    // the 64 lists of used pulses those are spent that leave less than a rise: 0, 8, 19.
    report.part("every small write, n = ", 3, machine::every_small_write())?;
    // 1,000 sampled records and as many forged ones, 10 comparisons each: every number from 0 to 10, 18 and 19.
    for n in 3..=12 {
        report.part("records, n = ", n, machine::records(n))?;
    }
    // 2,500 pairs of sampled groups: 0, 1, 2, 6, 7.
    for n in 3..=12 {
        report.part("alike, n = ", n, machine::alike(n))?;
    }
    // 40 lists of 250 calls, 2 comparisons each: every number from 0 to 10, 18 and 19.
    for n in 3..=12 {
        report.part("lists of calls, n = ", n, machine::lists(n))?;
    }
    // 200 sampled records and as many forged ones, lists of 0 to 12 places, 2 comparisons each: 0, 1, 2, 4, 8, 10, 19.
    for n in 3..=12 {
        report.part("lent lists, n = ", n, lent::lists(n))?;
    }
    Ok(())
}

// The parts on runs and their windows.
fn compare_runs(report: &mut Report<'_, impl Print>) -> io::Result<()> {
    // 141 lengths and 5 huge ones: 126 are opened, all else refused 13.
    report.part("opened runs, ", 146, windows::opens())?;
    // 32 runs and as many forged ones, each as a record and as a list. Of the forged ones 20 have a wrong length; of 12 with another level 2 are
    // runs as records, and 8 as lists: 74 are runs, 54 refused 13.
    report.part("checked runs, ", 64, windows::checks())?;
    // 32 runs and as many forged ones, 256 cells, 7 levels: 0, 3, 13, 14.
    report.part("raises, runs ", 64, windows::raises())?;
    // 32 runs, 15 widths, 14 steps, 3 lengths of each of the two lists, 2 comparisons each. Where width and step fit, 4 of 9 are done and 5
    // refused 15, all else 13; few of the forged runs have any that fit.
    report.part("windows, levels ", 4, windows::along(0, 4))?;
    report.part("windows, levels ", 4096, windows::along(0, 4096))?;
    report.part("windows, forged runs ", 32, windows::along(32, 4096))?;
    // 0 to 130 cells, 15 widths, 14 steps: 0, 13.
    report.part("limits of windows to ", 130, windows::every_limit())?;
    // 13 calls, 2 comparisons each: one that fits is done, 5 huge widths and 5 huge steps are refused 13, and two with a list without a place 15.
    // Then 15 of limits alone: one of the huge lengths goes by 3, all else is refused 13.
    report.part("windows, huge limits ", 13, windows::limits())?;
    // Lists of 0 to 130 levels, 15 widths, 14 steps: 0, 13.
    report.part("windows, lists of levels to ", 130, windows::slices())
}

// The frame of each comparison: the report of this program's parts, and its total.
fn main(rt: HostRuntime) -> io::Result<()> {
    let mut report = Report::new(&rt);
    compare_groups(&mut report)?;
    compare_runs(&mut report)?;
    report.total()
}
