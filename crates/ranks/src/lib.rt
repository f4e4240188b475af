// The ranks of the cells in an order (document 01, "Cells, ranks, levels"): an order's inverse, and back.
// Every public function takes any value and answers it by one equation with a definition of specs/. Proved besides: an order and its
// ranks undo each other, both ways (proofs/Determine).
#![tactic(auto)]

ghost use Rattle.std.specs.Prelude.{◌≡◌, drop};
ghost use Rattle.order.specs.Cells.{all_zero};
ghost use Rattle.order.specs.Order.{told_order};
ghost use Rattle.ranks.specs.Ranks.{rank_numbers, ranks_of, order_by_rank, no_ranks, told_ranks, ranks_of_order, order_of_ranks};

use order::{Cell, Checked, Order, Rank, Refusal, Size};

// The rank of cell c at index c - 1. Indices from `len` on hold `Rank(0)`. A length beside fixed places: see `order::Order`.
#[derive(Clone, Copy, PartialEq, Eq)]
pub struct Ranks {
    pub len: usize,
    pub ranks: [Rank; 12],
}

// The inverse of an order.
#[tactic(auto, unfolding(order::specs::Refusals::number_of, order::specs::Refusals::answer, crate::specs::Ranks::ranks_of_order))]
pub fn ranks_of(o: Order) -> Result<Ranks, Refusal>
    ensures { told_ranks result ≡ ranks_of_order o }
{
    Ok(ranks_by_sweep(Checked::new(o)?))
}

// The all-zero record of ranks: no cells.
pub fn zero_ranks() -> Ranks
    ensures { result ≡ no_ranks }
{
    Ranks {
        len: 0,
        ranks: [Rank(0); 12],
    }
}

// The rank of each cell: a sweep from the last place to the first.
#[tactic(auto, using(crate::proofs::RankNumbers::cell_met))]
fn ranks_by_sweep(checked: Checked) -> Ranks
    ensures { result ≡ ranks_of checked.order }
{
    let o = checked.order;
    let n = o.len;
    let mut ranks = [Rank(0); 12];
    for i in (0..n).rev() {
        ranks[o.cells[i].number() - 1] = Rank(i as u8 + 1);
    }
    Ranks { len: n, ranks }
}

// The order of given ranks. Ranks are 1 to n, each once, where their inverse lists each cell once.
#[tactic(auto, using(crate::proofs::Determine::ranks_listing), unfolding(order::specs::Refusals::number_of, order::specs::Refusals::answer, crate::specs::Ranks::order_of_ranks))]
pub fn from_ranks(r: Ranks) -> Result<Order, Refusal>
    ensures { told_order result ≡ order_of_ranks r }
{
    let size = Size::new(r.len)?;
    let found = cells_by_sweep(r, size);
    if !order::is_order(found, r.len) || !ranks_are_clear_past(r, size) {
        return Err(Refusal::NoOrder);
    }
    Ok(found)
}

// Whether the places past so many cells hold no rank.
fn ranks_are_clear_past(r: Ranks, size: Size) -> bool
    ensures { result ≡ all_zero (drop size.cells (rank_numbers r)) }
{
    r.ranks[size.cells..].iter().all(|rank| rank.0 == 0)
}

// The cell of each rank among those of so many cells: a sweep from the last cell to the first, so that of two cells of one rank the first stays. A rank outside 1 to 12
// has no place.
fn cells_by_sweep(r: Ranks, size: Size) -> Order
    ensures { result ≡ order_by_rank (record { len = size.cells; ranks = r.ranks }) }
{
    let n = size.cells;
    let mut cells = [Cell(0); 12];
    for i in (0..n).rev() {
        let rank = r.ranks[i].number();
        if (1..=12).contains(&rank) {
            cells[rank - 1] = Cell(i as u8 + 1);
        }
    }
    Order { len: n, cells }
}
