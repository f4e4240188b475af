// A number of cells that a group can have.
ghost use Rattle.std.specs.Prelude.{◌≡◌, ◌≤◌, [], ◌∷◌, IfOk};
ghost use Rattle.order.specs.Refusals.{outcome_number, number_of, is_size};
ghost use Rattle.order.specs.declared.Refusal.TheVariants as refusal;

use crate::Refusal;

// 3 to 12.
#[derive(Clone, Copy)]
pub struct Size {
    pub cells: usize,
    ghost least: { 3 ≤ cells },
    ghost most: { cells ≤ 12 },
}

impl Size {
    // The number, where it is one, or the refusal.
    #[tactic(auto, unfolding(crate::specs::Refusals::number_of))]
    pub fn new(cells: usize) -> Result<Size, Refusal>
        ensures number { outcome_number result ≡ number_of ((is_size cells, refusal.Size) ∷ []) }
        ensures same { IfOk result (λ size. size.cells ≡ cells) }
    {
        if !crate::is_size(cells) {
            return Err(Refusal::Size);
        }
        Ok(Size { cells })
    }
}
