// A fixed sample of orders, groups and calls: each is made from numbers that say which one it is, so that nothing has to be kept.
ghost use Rattle.std.specs.Prelude.{◌<◌};

use group::Group;
use naive::levels::index;
use naive::numbers::{at, byte, put};
use naive::orders::{cells_of, placed, with_cells};
use naive::words::{Listing, is_word, next, word_cells};
use order::{Cell, Order};
use plain_machine::{Call, Kind, plain_target};
use sharing::Ranked;
use std::array;

// The number of orders of n cells.
const ORDERS: [usize; 13] = [
    1, 1, 2, 6, 24, 120, 720, 5040, 40320, 362880, 3628800, 39916800, 479001600,
];

// How many numbers a u32 holds.
const ANY: usize = 4294967296;

// A number that looks random, for number k of a sequence.
fn noise(sequence: usize, k: usize) -> usize {
    mixed(mixed(mixed(sequence).wrapping_add(k)))
}

fn mixed(number: usize) -> usize {
    let mut x = number.wrapping_add(40503).wrapping_add(number << 10);
    x ^= x >> 6;
    x = x.wrapping_add(x << 3);
    x ^= x >> 11;
    x = x.wrapping_add(x << 15);
    x ^ (x >> 32)
}

// A number below m, 0 where there is none.
pub fn below(m: usize, sequence: usize, k: usize) -> usize {
    noise(sequence, k).checked_rem(m).unwrap_or(0)
}

// The number in a narrower type, 0 where it does not fit.
pub fn narrow<T: TryFrom<usize> + Default>(x: usize) -> T
where
    T::Error: Drop,
{
    T::try_from(x).unwrap_or_default()
}

// A row of n values, 0 past them.
fn row<T: Default, F: Fn(usize) -> T>(n: usize, value: F) -> [T; 12]
    requires { F.IsAlwaysCallable value }
{
    array::from_fn(|i| if i < n { value(i) } else { T::default() })
}

// The first n digits of k, the lowest first.
fn digits(n: usize, k: usize, base: usize) -> [u16; 12]
    requires { 0 < base }
{
    let mut row = [0u16; 12];
    let mut left = k;
    for digit in row.iter_mut().take(n) {
        *digit = narrow(left % base);
        left /= base;
    }
    row
}

// A small group of n cells: of 3 cells every one with levels to 2 and caps to 3, marked or not, when i is 0 to 3,455, and then with used pulses, up to the
// endurance of 3; of more cells some with levels to 2, caps to n and used pulses to n, the endurance.
pub fn small(n: usize, i: usize) -> Group {
    let k = if n == 3 { i } else { below(1000000000, n, i) };
    let most = n % 13;
    Group {
        n,
        levels: digits(n, k, 3),
        caps: digits(n, k / 27, most + 1),
        used: digits(n, k / 3456, most + 1).map(u32::from),
        endurance: narrow(most),
        written: k / 1728 % 2 == 1,
    }
}

// Coordinates of n cells, coordinate i at index i.
fn coordinates(n: usize, s: usize) -> [u8; 12] {
    row(n, |i| byte(below(i.wrapping_add(1), s, i)))
}

// An order of n cells.
pub fn order(n: usize, s: usize) -> Order {
    with_cells(placed(coordinates(n, s), n), n)
}

// Order number k of n cells in the list of all coordinates, which begins again after the last one.
pub fn order_at(n: usize, k: usize) -> Order {
    let first = Listing { n, values: [0; 12] };
    let listed = (0..k).fold(first, |l, _| next(l).unwrap_or(first));
    with_cells(word_cells(listed), n)
}

// A word of n cells: the first of many sampled lists whose weighted sum is divisible by 2n - 1.
pub fn word(n: usize, s: usize) -> Order {
    let values = (s..s.saturating_add(1000))
        .map(|k| coordinates(n, k))
        .find(|values| is_word(*values, n))
        .unwrap_or(coordinates(n, s));
    with_cells(placed(values, n), n)
}

// An order of n cells with two neighbours exchanged.
pub fn exchanged(o: Order, n: usize, s: usize) -> Order {
    let k = below(n.wrapping_sub(1), s, 40).wrapping_add(1);
    with_cells(naive::words::exchanged(cells_of(o), k), n)
}

// A size that no group has.
pub fn size(k: usize) -> usize {
    match k {
        0..=2 => k,
        3..=15 => 10 + k,
        16 => 259,
        17 => 65539,
        18 => 4294967299,
        _ => usize::MAX,
    }
}

// The order with one of its numbers set to another one: mostly a cell doubled and one missing, or a number that is no cell.
fn damaged(o: Order, s: usize) -> Order {
    let mut p = o;
    put(&mut p.cells, below(12, s, 50), Cell(byte(below(15, s, 51))));
    if below(4, s, 52) == 0 {
        p.len = below(15, s, 53);
    }
    p
}

// The levels or caps of n cells, below a bound.
fn levels(n: usize, bound: usize, s: usize) -> [u16; 12] {
    row(n, |i| narrow(below(bound, s, i)))
}

// The used pulses of n cells: of each one of the numbers up to the most, of which there are so many.
fn used_to(n: usize, most: u32, many: usize, s: usize) -> [u32; 12] {
    row(n, |i| most.wrapping_sub(narrow(below(many, s, i))))
}

// A group that any order can be written to, and another after it, and another: each cell has 64 pulses left or more, and rises by no more than 34, to 34,
// and then to 45 and to 56.
pub fn low_group(n: usize, s: usize) -> Group {
    let most = below(999937, s, 63);
    Group {
        n,
        levels: levels(n, 24, s.wrapping_add(1)),
        caps: row(n, |_| 4095),
        used: used_to(n, narrow(most), most.wrapping_add(1), s.wrapping_add(4)),
        endurance: narrow(most.wrapping_add(64)),
        written: below(8, s, 62) != 0,
    }
}

// The group with no pulses left to any of its cells.
pub fn spent(g: Group) -> Group {
    Group {
        used: used_to(g.n, g.endurance, 1, 0),
        ..g
    }
}

// A group that no order can be written to: the caps are 0 or 1. No pulses are left either, which is looked at after the caps.
pub fn worn_group(n: usize, s: usize) -> Group {
    Group {
        caps: levels(n, 2, s),
        ..spent(low_group(n, s))
    }
}

// A group with low levels or any, with full caps or any, and with many pulses left or few: below 48.
pub fn group(n: usize, s: usize) -> Group {
    let mut g = low_group(n, s);
    if below(2, s, 60) == 0 {
        g.levels = levels(n, 4096, s.wrapping_add(2));
    }
    if below(4, s, 61) == 0 {
        g.caps = levels(n, 4096, s.wrapping_add(3));
    }
    if below(4, s, 64) == 0 {
        g.used = used_to(n, g.endurance, 48, s.wrapping_add(5));
    }
    g
}

// A level or cap from 4,094 to 4,097, or in one of four any number.
fn edge(s: usize) -> u16 {
    narrow(match below(4, s, 72) {
        0 => below(65536, s, 73),
        _ => 4094 + below(4, s, 76) % 4,
    })
}

// An endurance just outside its range, a lower one, or any number.
fn other_endurance(endurance: u32, s: usize) -> u32 {
    match below(4, s, 77) {
        0 => 0,
        1 => 1000001,
        2 => narrow(below(endurance as usize + 1, s, 78)),
        _ => narrow(below(ANY, s, 78)),
    }
}

// Used pulses one below the endurance, at it or one above, or in one of four any number.
fn used_edge(endurance: u32, s: usize) -> u32 {
    match below(4, s, 72) {
        0 => narrow(below(ANY, s, 73)),
        _ => endurance
            .wrapping_add(1)
            .wrapping_sub(narrow(below(3, s, 76))),
    }
}

// A sampled group with another level, cap, number of used pulses, endurance or size: mostly no group.
pub fn forged(n: usize, s: usize) -> Group {
    let mut h = group(n, s);
    let endurance = h.endurance;
    let place = below(12, s, 70);
    match below(6, s, 71) {
        0 => put(&mut h.levels, place, edge(s)),
        1 => put(&mut h.caps, place, edge(s)),
        2 => h.n = n.wrapping_add(below(4, s, 74)).wrapping_sub(2),
        3 => h.n = size(below(20, s, 75)),
        4 => put(&mut h.used, place, used_edge(endurance, s)),
        _ => h.endurance = other_endurance(endurance, s),
    }
    h
}

// An order to write to n cells, damaged in one of 16.
pub fn target(n: usize, s: usize) -> Order {
    let o = order(n, s.wrapping_add(3));
    match below(16, s, 80) {
        0 => damaged(o, s),
        _ => o,
    }
}

// A target of n cells with ranks: one ends after place i + 1 where bit i of a number is set, and the last one after place n.
pub fn ranked(cells: Order, n: usize, ends: usize) -> Ranked {
    let mut r = plain_target(cells);
    let mut bits = ends;
    for i in 0..n.min(12) {
        let k = r.count;
        if k < 12 {
            r.sizes[k] = r.sizes[k].wrapping_add(1);
        }
        if bits % 2 == 1 || i + 1 == n {
            r.count = k.wrapping_add(1);
        }
        bits /= 2;
    }
    r
}

// The target with other rank sizes, mostly no sizes of its cells. At a rank of it, or at the place past the last: one more, which past the last is a
// place that is not 0; one less, which there is 255; or 0. Another count; one that no list has; no ranks; or two ranks more, of which a byte that adds the
// sizes sees nothing.
fn missized(r: Ranked, s: usize) -> Ranked {
    let place = below(r.count.wrapping_add(1), s, 101);
    let held = at(&r.sizes, place);
    let mut t = r;
    match below(8, s, 100) {
        0..=1 => put(&mut t.sizes, place, held.wrapping_add(1)),
        2 => put(&mut t.sizes, place, held.wrapping_sub(1)),
        3 => put(&mut t.sizes, place, 0),
        4 => t.count = below(13, s, 102),
        5 => t.count = size(below(20, s, 103)),
        6 => t = plain_target(r.cells),
        _ => {
            put(&mut t.sizes, r.count, 255);
            put(&mut t.sizes, r.count.wrapping_add(1), 1);
            t.count = r.count.wrapping_add(2);
        }
    }
    t
}

// A target with ranks to write to n cells: the order is damaged in one of 16, and the sizes in one of 8.
pub fn shared(n: usize, s: usize) -> Ranked {
    let r = ranked(target(n, s), n, below(4096, s, 96));
    match below(8, s, 97) {
        0 => missized(r, s),
        _ => r,
    }
}

// A cell of a group, or the number below or above, or 255.
pub fn cell(g: Group, s: usize) -> Cell {
    match below(16, s, 94) {
        0 => Cell(255),
        _ => Cell(byte(below(g.n.wrapping_add(2), s, 82))),
    }
}

// A call of the machine on a group: mostly one that can be accepted.
pub fn call(g: Group, s: usize) -> Call {
    Call {
        kind: kind(g, s),
        target: shared(g.n, s),
    }
}

fn kind(g: Group, s: usize) -> Kind {
    match below(32, s, 98) {
        0 => Kind::WriteSharedInto(below(13, s, 95)),
        1..=2 => Kind::WriteShared,
        _ => plain_kind(g, s),
    }
}

// The kind of a call other than a shared write.
fn plain_kind(g: Group, s: usize) -> Kind {
    let c = cell(g, s);
    match below(9, s, 81) {
        0 => Kind::Write,
        1 => Kind::WriteInto(below(13, s, 95)),
        2..=3 => Kind::Scrub,
        4 => Kind::Read,
        5 => Kind::Store(symbol(g.n, s)),
        6..=7 => Kind::Leak(c, drop(s)),
        _ => match below(4, s, 83) {
            0 => Kind::Erase,
            _ => Kind::Wear(c, cap(g, c, s)),
        },
    }
}

// n! / (2n - 1), cut: n cells have so many words, or one more.
pub fn words(n: usize) -> usize {
    match n {
        1..=12 => ORDERS[n] / (2 * n - 1),
        _ => 0,
    }
}

// A symbol of n cells, or one just past the last, or any number.
pub fn symbol(n: usize, s: usize) -> u32 {
    narrow(match below(16, s, 84) {
        0 => below(ANY, s, 85),
        _ => below(words(n).wrapping_add(3), s, 86),
    })
}

// How much a leak takes: little, or up to any number.
pub fn drop(s: usize) -> u32 {
    narrow(match below(8, s, 87) {
        0 => below(ANY, s, 88),
        _ => below(4, s, 89),
    })
}

// A cap near the cell's level, near its cap, or any number.
pub fn cap(g: Group, cell: Cell, s: usize) -> u32 {
    let i = index(cell.0);
    match below(8, s, 90) {
        0 => narrow(below(ANY, s, 91)),
        1..=2 => u32::from(at(&g.levels, i)).wrapping_add(narrow(below(24, s, 92))),
        _ => u32::from(at(&g.caps, i))
            .wrapping_add(1)
            .wrapping_sub(narrow(below(6, s, 93))),
    }
}
