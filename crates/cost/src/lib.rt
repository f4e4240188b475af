// Displacements and the cost of orders u to v (document 01, "Calls outside the list").
// Every public function takes any two records and answers them by one equation with a definition of specs/. Proved besides:
// the cost is the largest displacement and at least 0 (proofs/Costs), and an answer is told one to one (proofs/Told).
#![tactic(auto)]

ghost use Rattle.std.specs.Prelude.{◌≡◌, ◌≤◌};
ghost use Rattle.std.proofs.Math.IntN.{sub_ℕ};
ghost use Rattle.ranks.specs.Ranks.{rank_numbers};
ghost use Rattle.cost.specs.Cost.{told_displacements, told_cost, displacements_of, cost_of};
ghost use Rattle.cost.specs.Steps.{told_pair, ranks_of_pair, Low, displacements_by_rank, LargestGrowth};

use order::{Order, Rank, Refusal};
use ranks::Ranks;

// The displacements of the cells from u to v: that of cell c at index c - 1, then zeros.
#[tactic(auto, unfolding(order::specs::Refusals::number_of, order::specs::Refusals::answer, crate::specs::Steps::ranks_of_pair, crate::specs::Cost::displacements_of))]
pub fn displacements(u: Order, v: Order) -> Result<[i8; 12], Refusal>
    ensures { told_displacements result ≡ displacements_of u v }
{
    let (from, to) = ranks_of_pair(u, v)?;
    Ok(displacements_by_rank(from, to))
}

// The largest of the displacements from u to v.
#[tactic(auto, unfolding(order::specs::Refusals::number_of, order::specs::Refusals::answer, crate::specs::Steps::ranks_of_pair, crate::specs::Cost::cost_of))]
pub fn cost(u: Order, v: Order) -> Result<u8, Refusal>
    ensures { told_cost result ≡ cost_of u v }
{
    let (from, to) = ranks_of_pair(u, v)?;
    Ok(largest_growth(from, to))
}

// The ranks in u and in v. Orders that pass the checks of a pair are not refused their ranks.
#[tactic(auto, unfolding(order::specs::Refusals::number_of, order::specs::Refusals::answer, crate::specs::Steps::ranks_of_pair))]
fn ranks_of_pair(u: Order, v: Order) -> Result<(Ranks, Ranks), Refusal>
    ensures { told_pair result ≡ ranks_of_pair u v }
{
    order::check_pair(u, v)?;
    Ok((ranks::ranks_of(u)?, ranks::ranks_of(v)?))
}

// The displacement of each cell, by its ranks. Here and in `largest_growth` by places, as the definitions (specs/Steps) have it: over `zip` the invariant would
// speak of the iterator.
fn displacements_by_rank(from: Ranks, to: Ranks) -> [i8; 12]
    requires { Low from × Low to }
    ensures { result ≡ displacements_by_rank from to }
{
    let mut found = [0i8; 12];
    for i in 0..12 {
        found[i] = displacement(from.ranks[i], to.ranks[i]);
    }
    found
}

// The displacement of a cell that goes from one rank to another.
fn displacement(from: Rank, to: Rank) -> i8
    requires { (from.0 ≤ 12) × (to.0 ≤ 12) }
    ensures { result ≡ sub_ℕ to.0 from.0 }
{
    let after = to.0 as i8;
    let before = from.0 as i8;
    after - before
}

// The most by which a cell's rank grows, 0 where none does.
fn largest_growth(from: Ranks, to: Ranks) -> u8
    requires { (from.len ≤ 12) × Low from × Low to }
    ensures { LargestGrowth (rank_numbers from) (rank_numbers to) from.len result }
{
    let mut most: u8 = 0;
    for i in 0..from.len {
        most = most.max(to.ranks[i].0.saturating_sub(from.ranks[i].0));
    }
    most
}
