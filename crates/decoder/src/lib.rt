// The decoder of the one-error code (document 01, "The one-error code"; SD 003, construction 8, code C1): which orders are codewords, and the codeword
// within distance 1 of an order, by the syndrome. Codewords have no numbers here: these are the crate `code`'s. Every public function takes
// any value and answers it by one equation with a definition of specs/. Proved besides: at most one codeword is within distance 1 of
// an order, and it is the one that is found (proofs/Decoding).
#![tactic(auto)]

ghost use Rattle.std.specs.Prelude.{◌≡◌, ◌+◌, ◌%◌, ◌≤◌, ◌<◌};
ghost use Rattle.order.specs.Order.{listed};
ghost use Rattle.coordinates.specs.Conversion.{coordinates_of};
ghost use Rattle.decoder.specs.Decoding.{modulus, correction};
ghost use Rattle.decoder.specs.Nearest.{told_test, is_codeword_of, exchanged_order, told_nearest, nearest_of};
ghost use Rattle.decoder.specs.Steps.{Misread, below_only, corrects_by, Exchangeable};

use coordinates::Coordinates;
use order::{Order, Refusal};

// The codeword within distance 1 of an order, and its coordinates. The cells of ranks `place` and `place` + 1 were exchanged; 0 where the order is
// that codeword itself: 0, and no option, since `nearest_of` states the place as a number.
#[derive(Clone, Copy, PartialEq, Eq)]
pub struct Found {
    pub word: Order,
    pub place: u8,
    pub coordinates: Coordinates,
}

// Whether an order is a codeword.
pub fn is_codeword(o: Order) -> Result<bool, Refusal>
    ensures { told_test result ≡ is_codeword_of o }
{
    let sum = coordinates::sweep_of(o, o.len)?.sum;
    Ok(syndrome(o.len, sum) == 0)
}

// The syndrome: what the weighted sum of the coordinates of n cells leaves on division by 2n - 1. n is the length of an order that the sweep has checked, as in
// `corrects`: an `order::Checked` in place of these facts would check it once more.
fn syndrome(n: usize, sum: u32) -> usize
    requires { (1 ≤ n) × (n ≤ 12) }
    ensures { result ≡ sum % modulus n }
{
    let remainder = sum % ((2 * n - 1) as u32);
    remainder as usize
}

// The codeword within distance 1 of an order.
pub fn nearest(o: Order) -> Result<Found, Refusal>
    ensures { told_nearest result ≡ nearest_of o }
{
    let sweep = coordinates::sweep_of(o, o.len)?;
    let coordinates = sweep.coordinates;
    let s = syndrome(o.len, sweep.sum);
    if s == 0 {
        return Ok(Found {
            word: o,
            place: 0,
            coordinates,
        });
    }
    let k = exchange_for(o, s).ok_or(Refusal::Lost)?;
    let place = k as u8;
    let word = exchanged(o, k);
    Ok(Found {
        word,
        place,
        coordinates: corrected_coordinates(coordinates, o, k),
    })
}

// The first place at which a neighbour exchange makes an order whose syndrome is s, not 0, a codeword.
fn exchange_for(o: Order, s: usize) -> Option<usize>
    requires { Misread o s }
    ensures { result ≡ below_only o.len (correction o.len (listed o)) }
{
    for k in 1..o.len {
        let above = o.cells[k - 1].number();
        let below = o.cells[k].number();
        if corrects(o.len, s, above, below) {
            return Some(k);
        }
    }
    None
}

// Whether the exchange of a cell and the one just below it makes the syndrome 0: it changes the weighted sum by the greater of the two
// numbers less 1, up where that cell stands below, down where it stands above.
fn corrects(n: usize, s: usize, above: usize, below: usize) -> bool
    requires { (1 ≤ n) × (n ≤ 12) × (s < modulus n) × (1 ≤ above) × (above ≤ n) × (1 ≤ below) × (below ≤ n) }
    ensures { result ≡ corrects_by n s above below }
{
    if above < below {
        s + (below - 1) == 2 * n - 1
    } else {
        s == above - 1
    }
}

// The order with the cells of ranks k and k + 1 exchanged.
fn exchanged(o: Order, k: usize) -> Order
    requires { Exchangeable o k }
    ensures { result ≡ exchanged_order o k }
{
    let mut next = o;
    next.cells.swap(k - 1, k);
    next
}

// The coordinates of an order after the exchange at place k, from those before it: that of the greater of the two cells changes by one, up where
// that cell stands below, down where it stands above.
fn corrected_coordinates(x: Coordinates, o: Order, k: usize) -> Coordinates
    requires { Exchangeable o k × (x ≡ coordinates_of o) }
    ensures { result ≡ coordinates_of (exchanged_order o k) }
{
    let above = o.cells[k - 1].number();
    let below = o.cells[k].number();
    let mut next = x;
    if above < below {
        next.values[below - 2] += 1;
    } else {
        next.values[above - 2] -= 1;
    }
    next
}
