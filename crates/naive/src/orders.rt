// Orders, their inverses and their coordinates (document 01, "Cells, ranks, levels" and "Coordinates and distance").
use crate::numbers::{byte, is_clear_from, is_size};
use coordinates::Coordinates;
use order::{Cell, Order, Rank, Refusal};
use ranks::Ranks;

// The cells of an order as plain numbers.
pub fn cells_of(o: Order) -> [u8; 12] {
    o.cells.map(|cell| cell.0)
}

pub fn with_cells(cells: [u8; 12], n: usize) -> Order {
    Order {
        len: n,
        cells: cells.map(Cell),
    }
}

pub fn ranks_in(r: Ranks) -> [u8; 12] {
    r.ranks.map(|rank| rank.0)
}

pub fn with_ranks(ranks: [u8; 12], n: usize) -> Ranks {
    Ranks {
        len: n,
        ranks: ranks.map(Rank),
    }
}

// How many of the first n places hold x. Here and below the twelve places and n go by themselves: the zeros past n are part of what is asked.
pub fn times(values: [u8; 12], n: usize, x: usize) -> usize {
    values
        .iter()
        .take(n)
        .filter(|v| usize::from(**v) == x)
        .count()
}

// Whether none of 1 to n is missing or doubled in the first n places, and nothing follows.
fn lists_each_once(values: [u8; 12], n: usize) -> bool {
    (1..=n).all(|x| times(values, n, x) == 1) && is_clear_from(&values, n)
}

pub fn is_order(o: Order, n: usize) -> bool {
    o.len == n && is_size(n) && lists_each_once(cells_of(o), n)
}

// The check of a list of n cells or ranks.
fn check_list(values: [u8; 12], n: usize) -> Result<(), Refusal> {
    if !is_size(n) {
        return Err(Refusal::Size);
    }
    if !lists_each_once(values, n) {
        return Err(Refusal::NoOrder);
    }
    Ok(())
}

// The check of an order that is handed in without a group.
pub fn check_order(o: Order) -> Result<(), Refusal> {
    check_list(cells_of(o), o.len)
}

// The check of two orders without a group: n is the first one's length. Like the engine's, whose code it does not share.
pub fn check_pair(u: Order, v: Order) -> Result<(), Refusal> {
    check_order(u)?;
    if !is_order(v, u.len) {
        return Err(Refusal::NoOrder);
    }
    Ok(())
}

// The place of x, from 1, and 0 where it is not there: 0, and no option, since the definitions that are followed here state it so.
pub fn place(values: [u8; 12], x: usize) -> usize {
    let index = values.iter().position(|v| usize::from(*v) == x);
    index.map_or(0, |i| i.wrapping_add(1))
}

// The place of each of 1 to n: the ranks of an order's cells, and back.
pub fn places(values: [u8; 12], n: usize) -> [u8; 12] {
    let mut found = [0; 12];
    for (i, held) in found.iter_mut().enumerate().take(n) {
        *held = byte(place(values, i.wrapping_add(1)));
    }
    found
}

pub fn ranks_of(o: Order) -> Result<Ranks, Refusal> {
    check_order(o)?;
    Ok(with_ranks(places(cells_of(o), o.len), o.len))
}

pub fn from_ranks(r: Ranks) -> Result<Order, Refusal> {
    let ranks = ranks_in(r);
    check_list(ranks, r.len)?;
    Ok(with_cells(places(ranks, r.len), r.len))
}

// The order of a list of cell numbers.
pub fn order_of(cells: &[u8]) -> Result<Order, Refusal> {
    let mut held = [0; 12];
    for (place, cell) in held.iter_mut().zip(cells) {
        *place = *cell;
    }
    check_list(held, cells.len())?;
    Ok(with_cells(held, cells.len()))
}

// Coordinate i: the number of cells below i + 1 in number that stand after cell i + 1.
fn coordinate(cells: [u8; 12], n: usize, i: usize) -> usize {
    let cell = i.wrapping_add(1);
    let place = place(cells, cell);
    let after = cells.iter().take(n).skip(place);
    after.filter(|c| usize::from(**c) < cell).count()
}

// The coordinates of n cells, coordinate i at index i.
pub fn coordinates_at(cells: [u8; 12], n: usize) -> [u8; 12] {
    let mut values = [0; 12];
    for (i, value) in values.iter_mut().enumerate().take(n).skip(1) {
        *value = byte(coordinate(cells, n, i));
    }
    values
}

// The record of the coordinates of n cells: coordinate i is at index i here, and at i - 1 in the record.
pub fn with_coordinates(values: [u8; 12], n: usize) -> Coordinates {
    let mut held = [0; 11];
    held.copy_from_slice(&values[1..]);
    Coordinates {
        len: n.wrapping_sub(1),
        values: held,
    }
}

pub fn coordinates_of(o: Order) -> Result<Coordinates, Refusal> {
    check_order(o)?;
    Ok(with_coordinates(coordinates_at(cells_of(o), o.len), o.len))
}

// Whether coordinate i is at most i, and 0 past the last.
fn are_in_range(values: [u8; 12], n: usize) -> bool {
    let mut listed = values.iter().enumerate().take(n);
    listed.all(|(i, value)| usize::from(*value) <= i) && is_clear_from(&values, n)
}

// Puts c in the free place that has so many free places after it.
fn put_free(cells: &mut [u8], c: u8, after: usize) {
    let free = cells.iter_mut().rev().filter(|cell| **cell == 0).nth(after);
    if let Some(cell) = free {
        *cell = c;
    }
}

// The cells of the order with given coordinates, coordinate i at index i. From cell n down to 1: the cells that are left go to the
// places that are free, so the coordinate of a cell counts the free places after it. Cell 1 takes the last one.
pub fn placed(values: [u8; 12], n: usize) -> [u8; 12] {
    let mut cells = [0; 12];
    let n = n.min(12);
    for (i, value) in values[..n].iter().enumerate().rev() {
        put_free(
            &mut cells[..n],
            byte(i.wrapping_add(1)),
            usize::from(*value),
        );
    }
    cells
}

// Coordinate i at index i.
pub fn shifted(x: Coordinates) -> [u8; 12] {
    let mut values = [0; 12];
    values[1..].copy_from_slice(&x.values);
    values
}

pub fn from_coordinates(x: Coordinates) -> Result<Order, Refusal> {
    let n = x.len.wrapping_add(1);
    if !is_size(n) {
        return Err(Refusal::Size);
    }
    let values = shifted(x);
    if !are_in_range(values, n) {
        return Err(Refusal::Coordinate);
    }
    Ok(with_cells(placed(values, n), n))
}
