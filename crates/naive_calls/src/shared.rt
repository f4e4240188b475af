// Targets with several cells on one rank (document 02, request (g)).
use crate::machine::{add_push, check, check_room, raised, unpushed};
use group::Group;
use naive::numbers::{byte, is_clear_from, put};
use naive::orders::{cells_of, is_order, place};
use order::Refusal;
use push_up::Written;
use sharing::Ranked;

// How many cells have a rank up to this one.
fn cells_to(sizes: &[u8; 12], rank: usize) -> usize {
    let mut sum: usize = 0;
    for size in sizes.iter().take(rank) {
        sum = sum.wrapping_add(usize::from(*size));
    }
    sum
}

// Whether a size is listed for each rank, none of them 0, and they add up to n.
fn are_sizes(target: Ranked, n: usize) -> bool {
    let Ranked { count, sizes, .. } = target;
    count <= 12
        && sizes.iter().take(count).all(|size| *size != 0)
        && is_clear_from(&sizes, count)
        && cells_to(&sizes, count) == n
}

// The rank of a place in the list of cells: the first rank up to which there are so many cells.
fn rank_at(sizes: &[u8; 12], place: usize) -> usize {
    (0..12)
        .find(|rank| place <= cells_to(sizes, *rank))
        .unwrap_or(12)
}

// The rank of each of n cells, 0 past them.
fn ranks_of(target: Ranked, n: usize) -> [u8; 12] {
    let cells = cells_of(target.cells);
    let mut ranks = [0; 12];
    for (c, rank) in ranks.iter_mut().enumerate().take(n) {
        *rank = byte(rank_at(&target.sizes, place(cells, c.wrapping_add(1))));
    }
    ranks
}

// The new level of a cell on a rank, from the old levels alone: the greatest of its own and, over all cells on lower ranks, of the old level and how
// many ranks lower that cell stands.
fn new_level(ranks: &[u8; 12], old: &[u16; 12], rank: u8, own: u16) -> u16 {
    let lower = ranks.iter().zip(old).filter(|(other, _)| rank < **other);
    let levels = lower.map(|(other, level)| {
        let ranks = other.wrapping_sub(rank);
        level.saturating_add(u16::from(ranks))
    });
    levels.max().map_or(own, |level| level.max(own))
}

// Tells the pushes to one rank: by rising cell number, each cell that really rises is pushed.
fn push_rank(w: &mut Written, ranks: &[u8; 12], old: &[u16; 12], rank: u8) {
    let there = old.iter().zip(ranks).enumerate();
    for (c, (start, _)) in there.filter(|(_, (_, own))| **own == rank) {
        let reach = new_level(ranks, old, rank, *start);
        if *start < reach {
            add_push(w, byte(c.wrapping_add(1)), *start, reach);
            put(&mut w.group.levels, c, reach);
        }
    }
}

// The answer to a write of these ranks: rank by rank from the lowest.
fn pushed_up(g: Group, ranks: &[u8; 12]) -> Result<Written, Refusal> {
    let mut w = unpushed(g);
    for rank in (1..=12).rev() {
        push_rank(&mut w, ranks, &g.levels, rank);
    }
    w.group = raised(g, w.group.levels, false)?;
    Ok(w)
}

pub fn write_shared(g: Group, target: Ranked) -> Result<Written, Refusal> {
    check(g)?;
    if !are_sizes(target, g.n) {
        return Err(Refusal::RankSizes);
    }
    if !is_order(target.cells, g.n) {
        return Err(Refusal::NoOrder);
    }
    pushed_up(g, &ranks_of(target, g.n))
}

pub fn write_shared_into(g: Group, target: Ranked, room: usize) -> Result<Written, Refusal> {
    check_room(g, room)?;
    write_shared(g, target)
}
