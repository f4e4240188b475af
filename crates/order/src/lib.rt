// Cells, ranks and orders (document 01, "Cells, ranks, levels") and the refusal table.
// Every public function takes any value and answers it by one equation with a definition of specs/; a call that can refuse answers the
// result, or the refusal.
#![tactic(auto)]

mod checked;
mod size;

ghost use Rattle.std.specs.Prelude.{◌≡◌, true, ◌≤◌, length};
ghost use Rattle.std.specs.Int.Bits.{bit_and};
ghost use Rattle.order.specs.Refusals.{refusal_number, outcome_number, number_of, is_size};
ghost use Rattle.order.specs.Cells.{is_order};
ghost use Rattle.order.specs.Steps.{is_padded};
ghost use Rattle.order.specs.Order.{cell_numbers, listed, is_order_of, order_checks, pair_checks, no_order, order_record, told_order, order_of_cells};

pub use checked::Checked;
pub use size::Size;

const ABOVE_FOUR_BITS: u8 = u8::MAX - 15;

// From place 12 - n on: the bits that must be 0 in each of the twelve places of an order of n cells. The number of a group's cell has four bits.
// Written out: a constant has no form of two repeats joined.
const SPARE: [u8; 24] = [
    ABOVE_FOUR_BITS,
    ABOVE_FOUR_BITS,
    ABOVE_FOUR_BITS,
    ABOVE_FOUR_BITS,
    ABOVE_FOUR_BITS,
    ABOVE_FOUR_BITS,
    ABOVE_FOUR_BITS,
    ABOVE_FOUR_BITS,
    ABOVE_FOUR_BITS,
    ABOVE_FOUR_BITS,
    ABOVE_FOUR_BITS,
    ABOVE_FOUR_BITS,
    u8::MAX,
    u8::MAX,
    u8::MAX,
    u8::MAX,
    u8::MAX,
    u8::MAX,
    u8::MAX,
    u8::MAX,
    u8::MAX,
    u8::MAX,
    u8::MAX,
    u8::MAX,
];

// A cell's number, from 1.
#[derive(Clone, Copy, PartialEq, Eq)]
pub struct Cell(pub u8);

// A rank, from 1.
#[derive(Clone, Copy, PartialEq, Eq)]
pub struct Rank(pub u8);

// The cells from highest level to lowest: the cell in place k at index k - 1. Indices from `len` on hold `Cell(0)`.
// A length beside fixed places, as in every record here and in the crates above: there is no heap, and every call answers for every record, also for one that breaks
// its rule.
#[derive(Clone, Copy, PartialEq, Eq)]
pub struct Order {
    pub len: usize,
    pub cells: [Cell; 12],
}

// The words of document 01's refusal table, in its order, and those of document 02.
#[derive(Clone, Copy, PartialEq, Eq)]
pub enum Refusal {
    Size = 1,
    NoGroup = 2,
    NoCell = 3,
    NoOrder = 4,
    NoSymbol = 5,
    Blank = 6,
    Lost = 7,
    Worn = 8,
    CapUp = 9,
    ListShort = 10,
    Coordinate = 11,
    BadRecord = 12,
    RunLimit = 13,
    NoRaise = 14,
    RoomShort = 15,
    NoPage = 16,
    Measurement = 17,
    RankSizes = 18,
    Spent = 19,
    Endurance = 20,
    Seed = 21,
}

impl Cell {
    // The cell's number, from 1. Public, and cited under this name: no `From`.
    pub fn number(self) -> usize
        ensures { result ≡ self.0 }
    {
        usize::from(self.0)
    }
}

impl Rank {
    // The rank, from 1. Public, and cited under this name: no `From`.
    pub fn number(self) -> usize
        ensures { result ≡ self.0 }
    {
        usize::from(self.0)
    }
}

// The number of a refusal in the table.
pub fn refusal_number(refusal: Refusal) -> u8
    ensures { result ≡ refusal_number refusal }
{
    refusal as u8
}

// The number of an answer: 0 is done, else the refusal's. Public, and cited under this name: no `From`.
pub fn outcome_number(outcome: Result<(), Refusal>) -> u8
    ensures { result ≡ outcome_number outcome }
{
    match outcome {
        Ok(()) => 0,
        Err(refusal) => refusal_number(refusal),
    }
}

// Whether a group can have n cells.
pub fn is_size(n: usize) -> bool
    ensures { result ≡ is_size n }
{
    (3..=12).contains(&n)
}

// Whether the record is an order of the cells 1 to n, and n a size.
pub fn is_order(o: Order, n: usize) -> bool
    ensures { result ≡ is_order_of n o }
{
    o.len == n && is_size(n) && is_padded(o) && lists_each_once(o)
}

// Whether the places up to the length hold numbers up to 15, and the places past it 0: no place has a bit that must be 0.
// The bits are gathered without an early leave, so that the compiler tests many places at once.
fn is_padded(o: Order) -> bool
    requires { o.len ≤ 12 }
    ensures { result ≡ is_padded o.len (cell_numbers o) }
{
    let spare = SPARE;
    let n = o.len;
    let mut over: u8 = 0;
    for i in 0..12 {
        over |= bits_among(o.cells[i].0, spare[12 - n + i]);
    }
    over == 0
}

// The bits that a number has among those given.
fn bits_among(number: u8, bits: u8) -> u8
    ensures { result ≡ bit_and number bits }
{
    number & bits
}

// Whether the listed cells are 1 to the length, each once: n numbers among which each of 1 to n stands. Bit c of the set says that c is met.
// Bit 0 is set from the start: 0 stands past the length.
fn lists_each_once(o: Order) -> bool
    requires { (o.len ≤ 12) × (is_padded o.len (cell_numbers o) ≡ true) }
    ensures { result ≡ is_order o.len (listed o) }
{
    let n = o.len;
    let mut met: u32 = 1;
    for cell in o.cells {
        met |= 1u32 << cell.0;
    }
    met == (2u32 << n) - 1
}

// The check of an order that is handed in without a group.
pub fn check_order(o: Order) -> Result<(), Refusal>
    ensures { outcome_number result ≡ number_of (order_checks o) }
{
    Checked::new(o)?;
    Ok(())
}

// The check of two orders that are handed in without a group: n is the first one's length.
#[tactic(auto, unfolding(crate::specs::Refusals::number_of))]
pub fn check_pair(u: Order, v: Order) -> Result<(), Refusal>
    ensures { outcome_number result ≡ number_of (pair_checks u v) }
{
    check_order(u)?;
    if !is_order(v, u.len) {
        return Err(Refusal::NoOrder);
    }
    Ok(())
}

// The order of a list of cell numbers, from highest level to lowest.
#[tactic(auto, unfolding(crate::specs::Refusals::number_of, crate::specs::Refusals::answer, crate::specs::Order::order_of_cells))]
pub fn order_of(cells: &[u8]) -> Result<Order, Refusal>
    ensures { told_order result ≡ order_of_cells cells.now }
{
    if !is_size(cells.len()) {
        return Err(Refusal::Size);
    }
    let order = order_with(cells);
    if !is_order(order, cells.len()) {
        return Err(Refusal::NoOrder);
    }
    Ok(order)
}

// The record of a list of cell numbers.
fn order_with(cells: &[u8]) -> Order
    requires { length cells.now ≤ 12 }
    ensures { result ≡ order_record cells.now }
{
    let mut held = [Cell(0); 12];
    for (i, cell) in cells.iter().enumerate() {
        held[i] = Cell(*cell);
    }
    Order {
        len: cells.len(),
        cells: held,
    }
}

// The all-zero record of an order: no cells.
pub fn zero_order() -> Order
    ensures { result ≡ no_order }
{
    Order {
        len: 0,
        cells: [Cell(0); 12],
    }
}
