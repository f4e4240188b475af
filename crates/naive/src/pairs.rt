// Two orders: distance, displacements and cost (document 01, "Coordinates and distance" and "Calls outside the list").
use crate::numbers::byte;
use crate::orders::{cells_of, check_pair, places};
use order::{Order, Refusal};

// How many cells below the one at index b two lists of ranks put on the other side of it.
fn opposed_to(u: &[u8; 12], v: &[u8; 12], b: usize, x: u8, y: u8) -> u32 {
    let below = u.iter().zip(v).take(b);
    u32::from(byte(below.filter(|(p, q)| (**p < x) != (**q < y)).count()))
}

// The number of cell pairs that two lists of ranks order oppositely, or some number above `most` where there are more.
pub fn opposed(u: [u8; 12], v: [u8; 12], n: usize, most: u32) -> u32 {
    let mut count: u32 = 0;
    for (b, (x, y)) in u.iter().zip(&v).enumerate().take(n) {
        count = count.wrapping_add(opposed_to(&u, &v, b, *x, *y));
        if most < count {
            return count;
        }
    }
    count
}

pub fn distance(u: Order, v: Order) -> Result<u32, Refusal> {
    check_pair(u, v)?;
    let from = places(cells_of(u), u.len);
    let to = places(cells_of(v), u.len);
    Ok(opposed(from, to, u.len, 66))
}

// Each cell's rank in v minus its rank in u.
pub fn displacements(u: Order, v: Order) -> Result<[i8; 12], Refusal> {
    check_pair(u, v)?;
    let from = places(cells_of(u), u.len);
    let to = places(cells_of(v), u.len);
    let mut values = [0; 12];
    for (value, (before, after)) in values.iter_mut().zip(from.iter().zip(&to)) {
        *value = i8::try_from(i16::from(*after) - i16::from(*before)).unwrap_or(0);
    }
    Ok(values)
}

// The largest of the displacements, which is never below 0.
pub fn cost(u: Order, v: Order) -> Result<u8, Refusal> {
    let values = displacements(u, v)?;
    let largest = values.iter().copied().max().unwrap_or(0);
    Ok(u8::try_from(largest).unwrap_or(0))
}
