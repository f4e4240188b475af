// Runs the shared writes and the second implementation, `naive`, on the same groups and targets (document 02, request (g)). Whole answers are compared:
// the number, the record with its mark, the pulses, how many pushes, and all pushes; or these in a lent list. Prints for each part what `compare_calls`
// does; at each stands how many comparisons it must make, and which numbers must come.
#![tactic(auto)]

mod cases;
mod lent;

use comparing::report::Report;
use std::io;

fn main(rt: HostRuntime) -> io::Result<()> {
    let mut report = Report::new(&rt);
    let name = "every target, n = ";
    // 27 levels, 64 caps, 2 marks, and 0 to 3 pulses used of cells 1 and 2; 6 orders and 4 lists of sizes: 0, 8, 19.
    report.part(name, 3, cases::every(3, 55296, 4, 6))?;
    // 400 groups, 24 orders and 8 lists of sizes: 0, 8, 19.
    report.part(name, 4, cases::every(4, 400, 8, 24))?;
    // 40 groups, 120 orders and 16 lists of sizes: 0, 8, 19.
    report.part(name, 5, cases::every(5, 40, 16, 120))?;
    // 20,000 sampled targets, 2 comparisons each: 0, 1, 2, 4, 8, 18, 19.
    report.part("sampled targets, n = 3 to ", 12, cases::sampled())?;
    // 10,000 sampled groups, 3 comparisons each: 0, 8, 19.
    report.part("orders and one rank, n = 3 to ", 12, cases::plain_targets())?;
    // 2,000 sampled targets, lists of 0 to 12 places, 2 comparisons each: 0, 1, 2, 4, 8, 10, 18, 19.
    report.part("lent lists, n = 3 to ", 12, lent::lists())?;
    report.total()
}
