// The coordinates of an order (document 01, "Coordinates and distance"), and the sweep that takes them with their weighted sum (document 02, (f)); the order
// of given coordinates as definitions, which the crate `insertion` meets. Every public function takes any value and answers it by one equation with a
// definition of specs/. Proved besides: coordinates are in range, and coordinates and order determine each other, both ways (proofs/Determine); what each
// place adds to a sweep, and that a sweep of all places holds the coordinates of the order, and their weighted sum (proofs/Sweeping).
#![tactic(auto)]

ghost use Rattle.std.specs.Prelude.{◌≡◌, cond, ◌-◌, ◌*◌, ◌%◌, ◌^◌, ◌≤◌, ltb, set};
ghost use Rattle.std.specs.Int.Count.{ones};
ghost use Rattle.coordinates.specs.Conversion.{no_coordinates, told_coordinates, coordinates_of_order};
ghost use Rattle.coordinates.specs.Sweep.{sweep_of, told_sweep, sweep_of_order};

use order::{Checked, Order, Refusal};

// Coordinate i at index i - 1. Indices from `len` on hold 0. A length beside fixed places: see `order::Order`.
#[derive(Clone, Copy, PartialEq, Eq)]
pub struct Coordinates {
    pub len: usize,
    pub values: [u8; 11],
}

// What a sweep over an order holds: the coordinates of the cells met, 0 for the others, and their weighted sum.
#[derive(Clone, Copy, PartialEq, Eq)]
pub struct Sweep {
    pub coordinates: Coordinates,
    pub sum: u32,
}

// The coordinates of an order: those that a sweep of all its places holds.
pub fn coordinates_of(o: Order) -> Result<Coordinates, Refusal>
    ensures { told_coordinates result ≡ coordinates_of_order o }
{
    Ok(sweep_of(o, o.len)?.coordinates)
}

// A sweep over an order, from its last place up, of so many places; of all where it has fewer.
#[tactic(auto, unfolding(order::specs::Refusals::number_of, order::specs::Refusals::answer, crate::specs::Sweep::sweep_of_order))]
pub fn sweep_of(o: Order, places: usize) -> Result<Sweep, Refusal>
    ensures { told_sweep result ≡ sweep_of_order o places }
{
    Ok(sweep_places(Checked::new(o)?, places))
}

// The all-zero record of coordinates: none.
pub fn zero_coordinates() -> Coordinates
    ensures { result ≡ no_coordinates }
{
    Coordinates {
        len: 0,
        values: [0; 11],
    }
}

// The sweep, with the set of cells met: each cell's coordinate is put among the values, and its term added to the sum.
fn sweep_places(checked: Checked, places: usize) -> Sweep
    ensures { result ≡ sweep_of checked.order places }
{
    let o = checked.order;
    let n = o.len;
    let mut met: u32 = 0;
    let mut values = [0u8; 11];
    let mut sum: u32 = 0;
    for i in (n.saturating_sub(places)..n).rev() {
        let c = o.cells[i].number();
        sum += put_coordinate(&mut values, met, c);
        met |= bit_of(c);
    }
    let len = n - 1;
    Sweep {
        coordinates: Coordinates { len, values },
        sum,
    }
}

// Coordinate c - 1, which is that of cell c, put among the values: the number of cells met whose bits are below that of c. The answer is its term of the
// weighted sum. Cell 1 has no coordinate.
fn put_coordinate(values: &mut [u8; 11], met: u32, c: usize) -> u32
    requires { (1 ≤ c) × (c ≤ 12) }
    ensures value { result ≡ (c - 1) * ones (met % 2 ^ (c - 1)) }
    ensures values_after { values.new ≡ cond (ltb c 2) values.old (set values.old (c - 2) (ones (met % 2 ^ (c - 1)))) }
{
    if c < 2 {
        return 0;
    }
    let bit = bit_of(c);
    let v = count_of(met % bit);
    values[c - 2] = v;
    (c - 1) as u32 * u32::from(v)
}

// How many cells are in a set: its ones.
fn count_of(set: u32) -> u8
    ensures { result ≡ ones set }
{
    set.count_ones() as u8
}

// The bit of cell c in a set of cells.
fn bit_of(c: usize) -> u32
    requires { (1 ≤ c) × (c ≤ 12) }
    ensures { result ≡ 2 ^ (c - 1) }
{
    1u32 << (c - 1)
}
