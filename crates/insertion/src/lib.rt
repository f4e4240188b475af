// The order of given coordinates (document 01, "Coordinates and distance": they determine the order), by insertion. The public function takes any
// record and answers it by one equation with a definition of `coordinates`, which has its laws too.
#![tactic(auto)]

ghost use Rattle.std.specs.Prelude.{◌≡◌, true, ◌≤◌};
ghost use Rattle.order.specs.Refusals.{outcome_number, number_of};
ghost use Rattle.order.specs.Order.{told_order};
ghost use Rattle.coordinates.specs.Coordinates.{limit, in_range};
ghost use Rattle.coordinates.specs.Conversion.{order_by_coordinates, coordinate_checks, order_of_coordinates};

use coordinates::Coordinates;
use order::{Cell, Order, Refusal};

// The order of given coordinates.
#[tactic(auto, unfolding(order::specs::Refusals::number_of, order::specs::Refusals::answer, coordinates::specs::Conversion::order_of_coordinates))]
pub fn from_coordinates(x: Coordinates) -> Result<Order, Refusal>
    ensures { told_order result ≡ order_of_coordinates x }
{
    check_coordinates(x)?;
    Ok(order_by_insertion(x))
}

// The check of coordinates that are handed in.
#[tactic(auto, unfolding(order::specs::Refusals::number_of))]
fn check_coordinates(x: Coordinates) -> Result<(), Refusal>
    ensures { outcome_number result ≡ number_of (coordinate_checks x) }
{
    if !(2..=11).contains(&x.len) {
        return Err(Refusal::Size);
    }
    if !are_in_range(x) {
        return Err(Refusal::Coordinate);
    }
    Ok(())
}

// Whether each coordinate is in its range. All are tested, with no way out in between: the compiler then tests them without a branch.
fn are_in_range(x: Coordinates) -> bool
    ensures { result ≡ in_range x.len 1 x.values }
{
    let mut within = true;
    for (k, value) in x.values.iter().enumerate() {
        within &= usize::from(*value) <= limit_of(x.len, k + 1);
    }
    within
}

// The largest that coordinate i of m can be.
fn limit_of(m: usize, i: usize) -> usize
    ensures { result ≡ limit m i }
{
    if i <= m { i } else { 0 }
}

// The order that has the coordinates: cell i + 1 is put in with coordinate i of the cells 1 to i after it. The loops are nested for speed: no array is passed
// from turn to turn.
fn order_by_insertion(x: Coordinates) -> Order
    requires { (x.len ≤ 11) × (in_range x.len 1 x.values ≡ true) }
    ensures { result ≡ order_by_coordinates x }
{
    let n = x.len + 1;
    let mut cells = [Cell(0); 12];
    cells[0] = Cell(1);
    for i in 1..n {
        let at = i - usize::from(x.values[i - 1]);
        // no `copy_within`: with it a codeword takes some 50 instructions more
        for j in (at..i).rev() {
            cells[j + 1] = cells[j];
        }
        cells[at] = Cell((i + 1) as u8);
    }
    Order { len: n, cells }
}
