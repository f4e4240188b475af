// The one-error code (document 01, "The one-error code"): words by listing every one of them.
use crate::levels::index;
use crate::numbers::{at, byte, is_size, put};
use crate::orders::{cells_of, check_order, coordinates_at, placed, with_coordinates};
use coordinates::Sweep;
use order::{Order, Refusal};

// A list of coordinates on the way through all of them in dictionary order, coordinate 1 first: coordinate i at index i.
#[derive(Clone, Copy, PartialEq, Eq)]
pub struct Listing {
    pub n: usize,
    pub values: [u8; 12],
}

// There are no more lists than 12 factorial.
const LISTS: u32 = 479001600;

// What a weighted sum leaves when it is divided by 2n - 1.
pub fn left(sum: usize, n: usize) -> usize {
    if !(1..=12).contains(&n) {
        return 0;
    }
    sum % (2 * n - 1)
}

// The first list, all zeros, which is a word; none where n is no size.
pub fn first(n: usize) -> Option<Listing> {
    is_size(n).then_some(Listing { n, values: [0; 12] })
}

// The list after this one, or none after the last. The last coordinate turns fastest; one that is at its largest goes back to 0 and the one before
// it turns.
pub fn next(l: Listing) -> Option<Listing> {
    let mut m = l;
    for i in (1..l.n.min(12)).rev() {
        let value = at(&m.values, i);
        if usize::from(value) < i {
            put(&mut m.values, i, value.wrapping_add(1));
            return Some(m);
        }
        put(&mut m.values, i, 0);
    }
    None
}

// The sum over i of i times coordinate i.
fn weight(values: [u8; 12]) -> usize {
    let mut sum: usize = 0;
    for (i, value) in values.iter().enumerate() {
        sum = sum.wrapping_add(i.wrapping_mul(usize::from(*value)));
    }
    sum
}

// The coordinates without those of the cells that stand before the last places, so many as were swept.
fn met(values: [u8; 12], cells: [u8; 12], n: usize, swept: usize) -> [u8; 12] {
    let mut held = values;
    for cell in cells.iter().take(n.saturating_sub(swept)) {
        put(&mut held, index(*cell), 0);
    }
    held
}

// Document 02, (f): what a sweep from the last place up holds after so many places.
pub fn sweep_of(o: Order, swept: usize) -> Result<Sweep, Refusal> {
    check_order(o)?;
    let cells = cells_of(o);
    let values = met(coordinates_at(cells, o.len), cells, o.len, swept);
    Ok(Sweep {
        coordinates: with_coordinates(values, o.len),
        sum: u32::try_from(weight(values)).unwrap_or(u32::MAX),
    })
}

// Whether coordinates of n cells are those of a word.
pub fn is_word(values: [u8; 12], n: usize) -> bool {
    left(weight(values), n) == 0
}

// The next word in the list, or none.
pub fn next_word(l: Listing) -> Option<Listing> {
    let mut m = l;
    for _ in 0..LISTS {
        m = next(m)?;
        if is_word(m.values, m.n) {
            return Some(m);
        }
    }
    None
}

// The cells of the word that a listing stands at.
pub fn word_cells(l: Listing) -> [u8; 12] {
    placed(l.values, l.n)
}

// Whether the weighted sum of an order's coordinates is divisible by 2n - 1.
pub fn is_codeword(o: Order) -> Result<bool, Refusal> {
    check_order(o)?;
    Ok(is_word(coordinates_at(cells_of(o), o.len), o.len))
}

// The first place, from 1, at which two lists of cells differ; 0 where they are equal.
pub fn first_difference(a: [u8; 12], b: [u8; 12]) -> u8 {
    let index = a.iter().zip(&b).position(|(x, y)| x != y);
    index.map_or(0, |i| byte(i.wrapping_add(1)))
}

// The cells with those of ranks k and k + 1 exchanged, as they are for k = 0.
pub fn exchanged(cells: [u8; 12], k: usize) -> [u8; 12] {
    let mut next = cells;
    if k != 0 {
        put(&mut next, k, at(&cells, k - 1));
        put(&mut next, k - 1, at(&cells, k));
    }
    next
}
