// The shared write (document 02, request (g)): minimal push-up to a target with several cells on one rank, with its push program. It takes any record and any
// target and answers them by one equation with a definition of specs/, over that of `push_up`. Proved besides: with all sizes 1 it answers as
// `writing::write` does, mark aside (proofs/Ones); each rank has as many cells as its size says, and the target shows exactly when every cell of a rank is
// strictly above every cell of the next (proofs/Shown).
#![tactic(auto)]

ghost use Rattle.std.specs.Prelude.{◌≡◌, true, ◌≤◌, ◌<◌};
ghost use Rattle.order.specs.Order.{listed};
ghost use Rattle.group.specs.Record.{all_at_most};
ghost use Rattle.push_up.specs.WriteAnswer.{told_written};
ghost use Rattle.push_up.specs.Steps.{push_up_to, cell_up};
ghost use Rattle.sharing.specs.Shared.{sizes_of, is_sizes, ranks_of, write_shared_of};
ghost use Rattle.sharing.specs.Steps.{is_place, part, Flags, rank_up, PushesFit};

use group::Group;
use order::{Cell, Checked, Order, Refusal};
use push_up::{Push, PushUp, Written};

// A target with several cells on one rank: how many ranks, how many cells each of them has, the highest rank first, and the cells by rank. Places past the
// last rank hold 0. As `order::Order`: fixed places, a count beside them.
#[derive(Clone, Copy, PartialEq, Eq)]
pub struct Ranked {
    pub count: usize,
    pub sizes: [u8; 12],
    pub cells: Order,
}

// Minimal push-up to such a target. Checked are 1, 2, 18, 4, 8 and 19, in this order; a refusal leaves the group, its mark included. Accepted, the mark is
// cleared.
#[tactic(auto, unfolding(order::specs::Refusals::number_of, order::specs::Refusals::answer, crate::specs::Shared::write_shared_of))]
pub fn write_shared(g: Group, target: Ranked) -> Result<Written, Refusal>
    ensures { told_written g result ≡ write_shared_of g target }
{
    group::check(g)?;
    if !are_sizes(g.n, target) {
        return Err(Refusal::RankSizes);
    }
    let Some(cells) = Checked::of(target.cells, g.n) else {
        return Err(Refusal::NoOrder);
    };
    let p = raise_ranks(cells, target, g.levels);
    let used = push_up::used_after(g, p.levels)?;
    Ok(push_up::programmed(g, p, used, false))
}

// Whether the target lists rank sizes of n cells. Twelve bytes add up to less than a usize holds. One loop tests and adds: a chain for each would go over the
// row twice.
fn are_sizes(n: usize, target: Ranked) -> bool
    ensures { result ≡ is_sizes n target }
{
    if 12 < target.count {
        return false;
    }
    let mut total: usize = 0;
    for (i, size) in target.sizes.iter().enumerate() {
        if !is_place(i < target.count, *size) {
            return false;
        }
        total += usize::from(*size);
    }
    total == n
}

// Whether a place for a size is as it should be: one that is used has at least 1, and one that is not used has 0.
fn is_place(used: bool, size: u8) -> bool
    ensures { result ≡ is_place used size }
{
    used == (1 <= size)
}

// The push-up of a whole shared target, whose cells are these, from its lowest rank.
fn raise_ranks(cells: Checked, target: Ranked, old: [u16; 12]) -> PushUp
    requires { (is_sizes cells.order.len target ≡ true) × (all_at_most 4095 old ≡ true) }
    ensures { result ≡ push_up_to 1 (ranks_of cells.order.len (sizes_of target) (listed cells.order)) old }
{
    let n = cells.order.len;
    let mut p = PushUp {
        levels: old,
        floor: 0,
        pulses: 0,
        count: 0,
        pushes: push_up::zero_pushes(),
    };
    let mut end = n;
    for k in (0..target.count).rev() {
        let first = end - usize::from(target.sizes[k]);
        p = raise_rank(p, old, on_rank(cells, first, end), n);
        end = first;
    }
    p
}

// Which cells are listed from one place of an order up to another: true at the index of each of these.
fn on_rank(cells: Checked, first: usize, end: usize) -> [bool; 12]
    requires { (first ≤ end) × (end ≤ cells.order.len) }
    ensures { Flags result (part first end (listed cells.order)) }
{
    let mut on = [false; 12];
    for i in (first..end).rev() {
        on[cells.order.cells[i].number() - 1] = true;
    }
    on
}

// The cells of one rank more, met in rising number. n is that of a checked group: an `order::Size` would test it once more.
fn raise_rank(p: PushUp, old: [u16; 12], on: [bool; 12], n: usize) -> PushUp
    requires { (n ≤ 12) × (all_at_most 4095 old ≡ true) × (p.floor ≤ 5000) × PushesFit n on old p }
    ensures { result ≡ rank_up n on old p }
{
    let floor = p.floor;
    let mut up = p;
    // one above a rank on which no cell stands yet
    up.floor = 1;
    for c in 0..n {
        if on[c] {
            up = raise_cell(up, Cell(c as u8 + 1), old[c], floor);
        }
    }
    up
}

// One cell more on a rank: it takes the larger of its level and the floor, and the next rank stands above it.
#[tactic(auto, unfolding(push_up::specs::Steps::cell_up, group::specs::Levels::put))]
fn raise_cell(p: PushUp, cell: Cell, level: u16, floor: u16) -> PushUp
    requires { (1 ≤ cell.0) × (cell.0 ≤ 12) × (level ≤ 5000) × (floor ≤ 5000) × (p.pulses ≤ 100000) × (p.count < 11) }
    ensures { result ≡ cell_up 1 floor cell level p }
{
    let mut up = p;
    up.floor = p.floor.max(level.max(floor) + 1);
    if level < floor {
        up.levels[cell.number() - 1] = floor;
        up.pulses += u32::from(floor - level);
        up.pushes[p.count] = Push {
            cell,
            start: level,
            reach: floor,
        };
        up.count += 1;
    }
    up
}
