// Runs the page calls and the second implementation, `naive`, on the same pages of groups (document 02, request (d)). Whole answers are compared:
// the number, the group named, the page with what stands after its groups, and the pulses; or the number, the group, how many symbols, and the
// symbols. Prints for each part what `compare_calls` does; at each stands how many comparisons it must make, and which numbers must come.
#![tactic(auto)]

mod calls;
mod cases;

use comparing::report::Report;
use std::io;

fn main(rt: HostRuntime) -> io::Result<()> {
    let mut report = Report::new(&rt);
    // 1 to 8 groups; one of eight places spoiled in one of ten ways or not, in half of the cases the last group too; 3 comparisons each. All 1,408
    // cases of 3 to 8 cells, and 256 of 9 to 12, where the second implementation numbers words slowly: 0, 1, 2, 5, 6, 7, 8, 16, 19.
    report.part("refusing groups, n = 3 to ", 12, cases::refusing())?;
    // 12 sizes, two of which no group has, 15 counts, lists of 0 to 9 symbols, 3 comparisons each. With each size of a group 80 pages are read and read
    // again, and 8 of them stored to; with the two others that is refused 1, and all else 16.
    report.part("counts and lengths, n to ", 13, cases::counts())?;
    report.total()
}
