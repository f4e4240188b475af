// The calls of the machine, one by one and in long lists.
use comparing::sample;
use comparing::tally::Tally;
use group::Group;
use naive::numbers::byte;
use order::{Cell, Order};
use plain_machine::{Call, Kind, plain_target};

// Five comparisons of a record: leaked, worn, erased, checked and sensed.
fn each_change(t: &mut Tally, g: Group, s: usize) {
    let cell = sample::cell(g, s);
    let d = sample::drop(s);
    let cap = sample::cap(g, cell, s);
    t.compare(
        changes::leak(g, cell, d),
        naive_calls::machine::leak(g, cell, d),
    );
    t.compare(
        changes::wear(g, cell, cap),
        naive_calls::machine::wear(g, cell, cap),
    );
    t.compare(changes::erase(g), naive_calls::machine::erase(g));
    t.compare(group::check(g), naive_calls::machine::check(g));
    t.compare(sensing::sense(g), naive_calls::machine::sense(g));
}

fn apply(t: &mut Tally, g: Group, call: Call) {
    t.compare(
        plain_machine::apply(g, call),
        naive_calls::machine::apply(g, call),
    );
}

// Ten comparisons of a record: the five above, an order written, a call of any kind, a symbol stored, read and scrubbed.
fn each_record(t: &mut Tally, g: Group, target: Order, s: usize) {
    each_change(t, g, s);
    t.compare(
        writing::write(g, target),
        naive_calls::machine::write(g, target),
    );
    apply(t, g, sample::call(g, s));
    let symbol = sample::symbol(g.n, s);
    t.compare(
        engine::store(g, symbol),
        naive_calls::machine::store(g, symbol),
    );
    let r = naive_calls::machine::reading(g);
    t.compare(engine::read(g), r.map(|c| c.decoded));
    t.compare(engine::scrub(g), naive_calls::machine::scrubbed(g, r));
}

// 1,000 sampled records of n cells, each as it is and forged.
pub fn records(n: usize) -> Tally {
    let mut t = Tally::default();
    for s in 0..1000 {
        let target = sample::target(n, s);
        each_record(&mut t, sample::group(n, s), target, s);
        each_record(&mut t, sample::forged(n, s), target, s);
    }
    t
}

// The endurance of a list of calls: one that lasts, or in three of four one below 2,000.
fn endurance(s: usize) -> u32 {
    sample::narrow(match sample::below(4, s, 110) {
        0 => 1000000,
        _ => sample::below(1999, s, 111).wrapping_add(1),
    })
}

// A list of 250 calls from a new group, each on the record that the call before it left, and beside it on a forged one: 2 comparisons.
fn list(t: &mut Tally, n: usize, s: usize) {
    let mut g = changes::open(n, endurance(s)).unwrap_or(group::zero_group());
    for step in s..s.saturating_add(250) {
        let call = sample::call(g, step);
        apply(t, g, call);
        apply(t, sample::forged(n, step), call);
        g = plain_machine::apply(g, call).map_or(g, |a| a.group);
    }
}

// 40 lists of calls on groups of n cells.
pub fn lists(n: usize) -> Tally {
    let mut t = Tally::default();
    for s in 0..40 {
        list(&mut t, n, 1000 * s);
    }
    t
}

// Call k on 3 cells: symbols 0 to 2 are stored, then a scrub, a read and an erase; then cells 0 to 4 leak by 1 and are worn to 1;
// then the six orders are written.
fn small_kind(k: usize) -> Kind {
    let cell = Cell(byte(k % 5));
    match k {
        0..=2 => Kind::Store(sample::narrow(k)),
        3 => Kind::Scrub,
        4 => Kind::Read,
        5 => Kind::Erase,
        6..=10 => Kind::Leak(cell, 1),
        11..=15 => Kind::Wear(cell, 1),
        _ => Kind::Write,
    }
}

fn small_call(k: usize) -> Call {
    Call {
        kind: small_kind(k),
        target: plain_target(sample::order_at(3, k % 6)),
    }
}

// Every small group: 27 levels, 64 caps, marked or not, and 0 to 3 pulses used of cell 1; and each of the 22 calls on it.
pub fn every_small() -> Tally {
    let mut t = Tally::default();
    for k in 0..304128 {
        apply(&mut t, sample::small(3, k / 22), small_call(k % 22));
    }
    t
}

// Every small group with 0 to 3 pulses used of each cell; and each of the six orders written to it.
pub fn every_small_write() -> Tally {
    let mut t = Tally::default();
    for k in 0..1327104 {
        apply(&mut t, sample::small(3, k / 6), small_call(16 + k % 6));
    }
    t
}

// The first of two groups: forged in one of five.
fn one(n: usize, k: usize) -> Group {
    match k % 5 {
        3 => sample::forged(n, k / 5),
        _ => sample::group(n, k / 5),
    }
}

// The second one: another, a leaked copy, one of 4 cells, another, or a forged one.
fn other(n: usize, k: usize) -> Group {
    let s = k / 5;
    match k % 5 {
        1 => {
            let g = sample::group(n, s);
            naive_calls::machine::leak(g, Cell(1), 1).unwrap_or(g)
        }
        2 => sample::group(4, s),
        4 => sample::forged(n, s),
        _ => sample::group(n, s + 1),
    }
}

// 2,500 pairs of groups.
pub fn alike(n: usize) -> Tally {
    let mut t = Tally::default();
    for k in 0..2500 {
        let g = one(n, k);
        let h = other(n, k);
        t.compare(engine::alike(g, h), naive_calls::machine::alike(g, h));
    }
    t
}
