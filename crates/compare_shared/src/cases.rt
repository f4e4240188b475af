// Shared writes to small groups and to sampled ones.
use comparing::sample;
use comparing::tally::Tally;
use group::Group;
use naive_calls::machine::{is_worn, unpushed};
use naive_calls::shared::write_shared;
use order::{Order, Refusal};
use push_up::Written;
use sharing::Ranked;

// One comparison.
fn compared(t: &mut Tally, g: Group, target: Ranked) {
    t.compare(sharing::write_shared(g, target), write_shared(g, target));
}

// So many small groups of n cells, and to each the order with its ranks.
fn every_group(t: &mut Tally, n: usize, groups: usize, target: Ranked) {
    for k in 0..groups {
        compared(t, sample::small(n, k), target);
    }
}

// So many groups of n cells, and to each the targets: each of the lists of sizes with this order.
fn every_list(t: &mut Tally, n: usize, groups: usize, lists: usize, order: Order) {
    for ends in 0..lists {
        every_group(t, n, groups, sample::ranked(order, n, ends));
    }
}

// So many groups of n cells, and to each the targets: each of the lists of sizes with each order.
pub fn every(n: usize, groups: usize, lists: usize, orders: usize) -> Tally {
    let mut t = Tally::default();
    for k in 0..orders {
        every_list(&mut t, n, groups, lists, sample::order_at(n, k));
    }
    t
}

// 2,000 sampled targets of each size, written to a group and to a forged one.
pub fn sampled() -> Tally {
    let mut t = Tally::default();
    for k in 0..20000 {
        let n = 3 + k / 2000;
        let target = sample::shared(n, k);
        compared(&mut t, sample::group(n, k), target);
        compared(&mut t, sample::forged(n, k), target);
    }
    t
}

// The record with its mark cleared.
fn unmarked(g: Group) -> Group {
    Group {
        written: false,
        ..g
    }
}

// The answer with the mark of its record cleared.
fn without_mark(w: Written) -> Written {
    Written {
        group: unmarked(w.group),
        ..w
    }
}

// Three comparisons: the shared write of an order, all sizes 1; the write of that order, which is the same, mark aside; and one rank of all cells, which
// keeps the levels, where none is above its cap.
fn as_plain(t: &mut Tally, g: Group, order: Order) {
    let ones = sample::ranked(order, g.n, 4095);
    compared(t, g, ones);
    let b = write_shared(g, ones);
    t.compare(writing::write(g, order).map(without_mark), b);
    let due = if is_worn(g.levels, g.caps) {
        Err(Refusal::Worn)
    } else {
        Ok(unpushed(unmarked(g)))
    };
    let one = sample::ranked(order, g.n, 0);
    t.compare(sharing::write_shared(g, one), due);
}

// 1,000 sampled groups of each size, with an order to write to each.
pub fn plain_targets() -> Tally {
    let mut t = Tally::default();
    for k in 0..10000 {
        let n = 3 + k / 1000;
        as_plain(&mut t, sample::group(n, k), sample::order(n, k));
    }
    t
}
