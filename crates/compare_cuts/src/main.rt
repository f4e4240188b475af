// Runs the engine and the second implementation, `naive`, on lists that a group is taken over from, and on calls that are cut in the middle of their
// push programs (document 02, requests (e), (g) and (h)). Prints for each part what `compare_calls` does; at each stands how many comparisons it must make, and
// which numbers must come.
#![tactic(auto)]

mod cases;
mod cuts;
mod take_overs;

use comparing::report::Report;
use plain_machine::Kind;
use std::io;

// The parts on lists that a group is taken over from.
fn compare_lists(report: &mut Report<'_, impl Print>) -> io::Result<()> {
    // 19 sizes, lists of 0 to 14 levels and of 0 to 14 caps, and at each of 12 places 4 values in the levels and 4 in the caps. Nine of the sizes are
    // refused 1. With any other, n, lists of n values are taken over, but for 12 of the 16 pairs at one of the first n places: 1,920 - 12 * (3 + .. +
    // 12). All else is refused 17.
    report.part("take-overs, lists to ", 14, take_overs::every_edge())?;
    // 19 sizes, lists of 0 to 14 used pulses, 4 endurances, and at each of 12 places 4 values in the used pulses; levels and caps of n values, or one level more,
    // or one cap more. Nine of the sizes are refused 1, and with the ten others one level or cap more 17. With any n left, lists of n used pulses are taken over
    // under the two endurances in range, but for 2 of the 4 values at one of the first n places: 960 - 4 * (3 + .. + 12). All else is refused 20.
    report.part("take-overs, used pulses to ", 14, take_overs::every_tally())
}

// Every small shared write with these sizes, a digit a rank, whose ranks end there (`sample::ranked`).
fn shared(report: &mut Report<'_, impl Print>, sizes: usize, ends: usize) -> io::Result<()> {
    let name = "every cut of every small shared write, sizes ";
    let t = cases::every_small(Kind::WriteShared, ends);
    report.part(name, sizes, t)
}

// The parts on calls that are cut.
fn compare_cuts(report: &mut Report<'_, impl Print>) -> io::Result<()> {
    // 27 levels, 64 caps, 2 marks and 6 orders: of these 20,736 writes 2,664 are accepted, though they bring every cell to its endurance, and all else is
    // refused 8. They have 11,160 cuts: one for each level of each push, from its start to its reach, and the end. 8 comparisons at each, all done.
    let t = cases::every_small(Kind::Write, 0);
    report.part("every cut of every small write, n = ", 3, t)?;
    // The same as shared writes (document 02, request (g)) with each list of sizes: 8,748, 5,064, 4,584 and 2,664 are accepted, with 8,748, 13,632, 14,808 and
    // 11,160 cuts.
    for (sizes, ends) in [(3, 0), (12, 1), (21, 2), (111, 3)] {
        shared(report, sizes, ends)?;
    }
    // 3,200 calls, of which 119 are refused 4, 32 refused 5, 105 refused 6, 291 refused 7, 353 refused 8 and 458 refused 19; the others have 80,462 cuts that
    // are tried, 8 comparisons at each, all done.
    report.part("cuts of sampled calls, n = 3 to ", 12, cases::sampled())?;
    // 1,000 shared writes, of which 50 are refused 4, 108 refused 8, 108 refused 18 and 136 refused 19; the others have 22,970 cuts that are tried.
    report.part(
        "cuts of sampled shared writes, n = 3 to ",
        12,
        cases::shared(),
    )
}

// The frame of each comparison: the report of this program's parts, and its total.
fn main(rt: HostRuntime) -> io::Result<()> {
    let mut report = Report::new(&rt);
    compare_lists(&mut report)?;
    compare_cuts(&mut report)?;
    report.total()
}
