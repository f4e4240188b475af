// An order that has passed its check.
ghost use Rattle.std.specs.Prelude.{◌≡◌, true, false, ◌≤◌, IfOk, MatchOption};
ghost use Rattle.order.specs.Refusals.{outcome_number, number_of};
ghost use Rattle.order.specs.Cells.{is_order};
ghost use Rattle.order.specs.Order.{listed, is_order_of, order_checks};

use crate::{Order, Refusal};

// An order of 3 to 12 cells, each of which it lists once. What takes one needs no check.
#[derive(Clone, Copy)]
pub struct Checked {
    pub order: Order,
    ghost long: { 3 ≤ order.len },
    ghost short: { order.len ≤ 12 },
    ghost lists: { is_order order.len (listed order) ≡ true },
}

impl Checked {
    // The record, where it is an order of n cells.
    pub fn of(order: Order, n: usize) -> Option<Checked>
        ensures { MatchOption result (is_order_of n order ≡ false) (λ c. (c.order ≡ order) × (is_order_of n order ≡ true)) }
    {
        if !crate::is_order(order, n) {
            return None;
        }
        Some(Checked { order })
    }

    // The record, where it is an order of as many cells as it says, or why it is none.
    #[tactic(auto, unfolding(crate::specs::Refusals::number_of))]
    pub fn new(order: Order) -> Result<Checked, Refusal>
        ensures number { outcome_number result ≡ number_of (order_checks order) }
        ensures same { IfOk result (λ c. c.order ≡ order) }
    {
        if !crate::is_size(order.len) {
            return Err(Refusal::Size);
        }
        Checked::of(order, order.len).ok_or(Refusal::NoOrder)
    }
}
