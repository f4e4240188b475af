// The distance of two orders (document 01, "Coordinates and distance"): the number of cell pairs that they list oppositely.
// The public function takes any two records and answers them by one equation with a definition of specs/. Proved besides:
// the distance is the least number of neighbour exchanges (proofs/Theorems), and one exchange changes one coordinate by one
// (proofs/OneCoordinate).
#![tactic(auto)]

ghost use Rattle.std.specs.Prelude.{◌≡◌, ◌-◌, ◌≤◌};
ghost use Rattle.order.specs.Cells.{place_of};
ghost use Rattle.distance.specs.Distance.{opposed, told_distance, distance_of};
ghost use Rattle.distance.specs.Steps.{front, without, SameFront};

use order::{Cell, Order, Refusal};

// The number of cell pairs that u and v list oppositely.
#[tactic(auto, unfolding(order::specs::Refusals::number_of, order::specs::Refusals::answer, crate::specs::Distance::distance_of))]
pub fn distance(u: Order, v: Order) -> Result<u32, Refusal>
    ensures { told_distance result ≡ distance_of u v }
{
    order::check_pair(u, v)?;
    Ok(distance_from(u, v, u.len))
}

// The distance of the first n cells of u and of v, which are the same cells: the last one of u is dropped from both, and
// n - p is added, where p is its place in v. n goes down to 0, so that neither it nor that of `place` and `drop_at` is an `order::Size`.
fn distance_from(u: Order, v: Order, n: usize) -> u32
    requires { SameFront u v n }
    ensures { result ≡ opposed (front n u) (front n v) }
{
    if n == 0 {
        return 0;
    }
    let last = u.cells[n - 1];
    let p = place(v, last, n);
    let behind = (n - p) as u32;
    distance_from(u, drop_at(v, p, n), n - 1) + behind
}

// The place of c among the first n cells, from 1, and 0 for none, as `place_of` (order, specs Cells) has it. By a `for`, and no `position`, whose result the
// definition does not follow.
fn place(o: Order, c: Cell, n: usize) -> usize
    requires { n ≤ 12 }
    ensures { result ≡ place_of (front n o) c.0 }
{
    for (i, cell) in o.cells[..n].iter().enumerate() {
        if *cell == c {
            return i + 1;
        }
    }
    0
}

// The cell at place p is dropped from the first n: those behind it move up by one.
fn drop_at(v: Order, p: usize, n: usize) -> Order
    requires { (1 ≤ p) × (p ≤ n) × (n ≤ 12) }
    ensures { front (n - 1) result ≡ without p (front n v) }
{
    let mut w = v;
    w.cells.copy_within(p..n, p - 1);
    w
}
