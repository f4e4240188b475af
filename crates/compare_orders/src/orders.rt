// The calls on orders, ranks and coordinates.
use comparing::sample;
use comparing::tally::Tally;
use coordinates::{Coordinates, zero_coordinates};
use naive::numbers::byte;
use naive::orders::{cells_of, with_cells, with_ranks};
use naive::words::{first, next, word_cells};
use order::Order;
use std::array;

// The cells of an order, with room for lists that are too long.
fn padded(o: Order) -> [u8; 16] {
    let mut cells = [0u8; 16];
    cells[..12].copy_from_slice(&cells_of(o));
    cells
}

// An order as a list of its length, up to 16.
fn order_of(t: &mut Tally, o: Order) {
    let cells = padded(o);
    let list = &cells[..o.len.min(16)];
    t.compare(order::order_of(list), naive::orders::order_of(list));
}

// Sweeps of 0 to 15 places, and of 2^64 - 1.
fn sweeps(t: &mut Tally, o: Order) {
    for places in (0..=16).map(length) {
        t.compare(
            coordinates::sweep_of(o, places),
            naive::words::sweep_of(o, places),
        );
    }
}

fn from_coordinates(t: &mut Tally, x: Coordinates) {
    t.compare(
        insertion::from_coordinates(x),
        naive::orders::from_coordinates(x),
    );
}

// The numbers of an order taken for as many coordinates.
fn as_coordinates(o: Order) -> Coordinates {
    Coordinates {
        len: o.len,
        values: array::from_fn(|i| o.cells[i].0),
    }
}

// Whether the record is an order of n cells: no refusal, and 0 in the tally.
pub fn is_order(t: &mut Tally, o: Order, n: usize) {
    t.compare(Ok(order::is_order(o, n)), Ok(naive::orders::is_order(o, n)));
}

// 28 comparisons of one order, right or not: as itself, as ranks, as a list, and as coordinates.
fn each(t: &mut Tally, o: Order) {
    t.compare(order::check_order(o), naive::orders::check_order(o));
    is_order(t, o, o.len);
    t.compare(ranks::ranks_of(o), naive::orders::ranks_of(o));
    let ranks = with_ranks(cells_of(o), o.len);
    t.compare(ranks::from_ranks(ranks), naive::orders::from_ranks(ranks));
    order_of(t, o);
    let x = naive::orders::coordinates_of(o);
    t.compare(coordinates::coordinates_of(o), x);
    sweeps(t, o);
    // none where it is refused
    from_coordinates(t, x.unwrap_or(zero_coordinates()));
    from_coordinates(t, as_coordinates(o));
    t.compare(decoder::is_codeword(o), naive::words::is_codeword(o));
    let r = naive_calls::symbols::corrected(o);
    t.compare(code::decode(o), r.map(|c| c.decoded));
    t.compare(code::corrected(o), r);
}

// Four comparisons of two orders, right or not.
fn each_pair(t: &mut Tally, u: Order, v: Order) {
    t.compare(order::check_pair(u, v), naive::orders::check_pair(u, v));
    t.compare(distance::distance(u, v), naive::pairs::distance(u, v));
    t.compare(cost::displacements(u, v), naive::pairs::displacements(u, v));
    t.compare(cost::cost(u, v), naive::pairs::cost(u, v));
}

// Every order of n cells, up to 6. Counted: over `successors(..).take(720)` the check doesn't find that `visit` may be called.
fn each_order<F: FnMut(Order)>(n: usize, mut visit: F)
    requires { F.IsAlwaysCallable visit }
{
    let mut listed = first(n);
    for _ in 0..720 {
        let Some(l) = listed else {
            return;
        };
        visit(with_cells(word_cells(l), n));
        listed = next(l);
    }
}

// Every order of n cells, and the reading that a search through all words finds.
pub fn every(n: usize) -> Tally {
    let mut t = Tally::default();
    each_order(n, |o| {
        each(&mut t, o);
        t.compare(code::corrected(o), naive_calls::symbols::searched(o));
    });
    t
}

// Every pair of orders of n cells.
pub fn every_pair(n: usize) -> Tally {
    let mut t = Tally::default();
    each_order(n, |u| each_order(n, |v| each_pair(&mut t, u, v)));
    t
}

// Lists that begin with any four numbers from 0 to 4, also past their length, and go on with 5, 6 and so on; the twelfth place is one more from
// k = 625 on.
fn listed(len: usize, k: usize) -> Order {
    let mut cells: [u8; 12] = array::from_fn(|i| if i < len { byte(i.wrapping_add(1)) } else { 0 });
    let mut left = k;
    for cell in cells.iter_mut().take(4) {
        *cell = byte(left % 5);
        left /= 5;
    }
    cells[11] = cells[11].wrapping_add(byte(left));
    with_cells(cells, len)
}

// Every such list of a length, alone, beside list k / 2 of the same length, and after the order [2,1,4,3].
pub fn every_list(len: usize) -> Tally {
    let mut t = Tally::default();
    for k in 0..1250 {
        let o = listed(len, k);
        each(&mut t, o);
        each_pair(&mut t, o, listed(len, k / 2));
        each_pair(&mut t, listed(4, 482), o);
    }
    t
}

// A length of a list, or a number of places; the last one huge.
pub fn length(len: usize) -> usize {
    if len < 16 { len } else { usize::MAX }
}

// Sampled orders of n cells, one in 16 damaged, each beside another.
pub fn every_sample(n: usize) -> Tally {
    let mut t = Tally::default();
    for s in 0..2000 {
        let o = sample::target(n, s);
        each(&mut t, o);
        each_pair(&mut t, o, sample::order(n, s + 1));
    }
    t
}
