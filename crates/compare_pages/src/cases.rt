// Pages with groups that refuse, of any size, and with any number of symbols.
use crate::calls::{Case, compared};
use comparing::sample;
use comparing::tally::Tally;
use group::Group;
use order::Order;
use std::array;

// Cut to 8, 16, 32 or 63 bits, four of the last five are a page's.
const COUNTS: [usize; 15] = [
    0,
    1,
    2,
    3,
    4,
    5,
    6,
    7,
    8,
    9,
    259,
    65544,
    4294967300,
    9223372036854775809,
    18446744073709551615,
];

// The group that a write leaves.
fn with_order(g: Group, order: Order) -> Group {
    naive_calls::machine::write(g, order).map_or(g, |w| w.group)
}

// A record of n cells. Where n is a size, it is a group with sampled levels that holds a symbol, and that any can be stored in.
fn record(n: usize, s: usize) -> Group {
    with_order(sample::low_group(n, s), sample::word(n, s))
}

// The group changed: blank; lost, which no order of 3 cells is; worn; with a level above 4,095; with a cap past n, or of 12 cells one above 4,095;
// with no cells; with ten cells more; in the ninth way to be put right when it is read; or in the tenth with no pulses left.
fn changed(g: Group, way: usize) -> Group {
    let n = g.n;
    let mut h = g;
    match way {
        1 => h.written = false,
        // coordinate n - 1 is 3, all else 0
        2 => h = with_order(g, sample::order_at(n, 3)),
        3 => {
            let caps = sample::worn_group(n, 0).caps;
            h.caps = caps;
        }
        4 => h.levels[1] = 4096,
        5 if n < 12 => h.caps[n] = 1,
        5 => h.caps[11] = 4096,
        6 => h.n = 0,
        7 => h.n = n.wrapping_add(10),
        9 => h = with_order(g, sample::exchanged(sample::word(n, 0), n, 0)),
        10 => h = sample::spent(g),
        _ => {}
    }
    h
}

// How place j is spoiled in case k: one of the eight places in the way of the case, 0 to 10; in the second half the last group, at index k % 8, in
// another way, which goes round with n; else not, as in way 0.
fn way(n: usize, k: usize, j: usize) -> usize {
    if k / 8 % 8 == j {
        return k / 64 % 11;
    }
    if 704 <= k && k % 8 == j {
        return (k / 64 + n % 10 + 1) % 11;
    }
    0
}

// So many groups that hold symbols, spoiled as in case k, and a symbol for each: in the eighth way one that no group has. The records after them have
// another n, and are no groups where n is a size. The ninth symbol is 0.
fn made(n: usize, many: usize, k: usize) -> Case {
    let groups = array::from_fn(|j| {
        let size = if j < many { n } else { n.wrapping_add(13) };
        changed(record(size, k.wrapping_add(j)), way(n, k, j))
    });
    let symbols = array::from_fn(|j| match way(n, k, j) {
        _ if j == 8 => 0,
        8 => u32::MAX,
        _ => sample::narrow(sample::below(sample::words(n), k, j)),
    });
    Case { groups, symbols }
}

// One case of n cells, whose page has each of its groups stored to.
fn refuse(t: &mut Tally, n: usize, k: usize) {
    let count = k % 8 + 1;
    compared(t, made(n, count, k), count, count);
}

// 3 to 8 cells, all 1,408 cases; 9 to 12 cells, 256 of them each; in these together 2, 5, 6, 7, 8 and 19 each come from each of the
// eight groups.
pub fn refusing() -> Tally {
    let mut t = Tally::default();
    for i in 0..8448 {
        refuse(&mut t, 3 + i / 1408, i % 1408);
    }
    for i in 0..1024 {
        refuse(&mut t, 9 + i / 256, i % 256 * 437 % 1408);
    }
    t
}

// No cells, 3 to 12, and 13: eight groups with each count, and lists of 0 to 9 symbols.
pub fn counts() -> Tally {
    let mut t = Tally::default();
    for i in 0..1800 {
        let size = 2 + i / 150;
        let n = if size == 2 { 0 } else { size };
        compared(&mut t, made(n, 8, i % 10), COUNTS[i / 10 % 15], i % 10);
    }
    t
}
