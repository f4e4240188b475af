// Writes that fill a lent list of pushes: a list of twelve places of which some are lent, and what it must hold after the call.
use crate::tally::Tally;
use order::{Cell, Refusal};
use push_list::WrittenInto;
use push_up::{Push, Written};

// What stands in a place of the list before the call: no push is like it, so a place that is touched shows.
const UNTOUCHED: Push = Push {
    cell: Cell(99),
    start: 9999,
    reach: 9999,
};

// What must stand in the list after the call: the pushes, and after them, as beside a refusal, what stood there.
fn due(answer: Result<Written, Refusal>) -> [Push; 12] {
    let mut list = untouched();
    if let Ok(written) = answer {
        for (i, push) in written.pushes.iter().enumerate().take(written.count) {
            list[i] = *push;
        }
    }
    list
}

// A list of twelve places before a call, which is lent the first ones.
pub fn untouched() -> [Push; 12] {
    [UNTOUCHED; 12]
}

// Two comparisons of a write that was lent places of such a list: of its answer with the one that is due, and of the list as it is left.
pub fn compare(
    t: &mut Tally,
    answer: Result<WrittenInto, Refusal>,
    list: [Push; 12],
    naive: Result<Written, Refusal>,
) {
    let told = naive.map(|w| WrittenInto {
        group: w.group,
        pulses: w.pulses,
        count: w.count,
    });
    t.compare(answer, told);
    t.compare_and(answer, told, list == due(naive));
}
