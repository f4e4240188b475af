// The one-error code (document 01, "The one-error code"; SD 003, construction 8, code C1): the numbers of its codewords, and what an order reads as. The
// codeword itself is found by the crate `decoder`. Every public function takes any value and answers it by one equation with a definition
// of specs/. Proved besides: number and word undo each other (proofs/Laws); `decode` finds a codeword exactly when it is within
// distance 1, and says lost exactly when there is none (proofs/Found).
#![tactic(auto)]

mod counts;
mod table;

ghost use Rattle.std.specs.Prelude.{◌≡◌, true, ◌+◌, ◌≤◌, ◌<◌, take};
ghost use Rattle.order.specs.Refusals.{is_size};
ghost use Rattle.order.specs.Order.{told_order};
ghost use Rattle.decoder.specs.Decoding.{modulus};
ghost use Rattle.code.specs.Words.{K, word_at, word_number};
ghost use Rattle.code.specs.Symbols.{told_words, words_of, codeword_of, verdict_at, told_decode, decode_of, told_corrected, corrected_of};
ghost use Rattle.code.specs.Tails.{tails, owed, before};
ghost use Rattle.code.specs.Steps.{held, is_word, Choosing, Chosen};

use coordinates::Coordinates;
use counts::Counts;
use order::{Order, Rank, Refusal, Size};

// What a reading found: a codeword, or one with the cells of ranks k and k + 1 exchanged. No `Option<Rank>`: these are the words of document 01, and an answer
// without a verdict would be an option of an option.
#[derive(Clone, Copy, PartialEq, Eq)]
pub enum Verdict {
    Clean,
    PutRight(Rank),
}

#[derive(Clone, Copy, PartialEq, Eq)]
pub struct Decoded {
    pub symbol: u32,
    pub verdict: Verdict,
}

// What an order reads as, and the codeword found.
#[derive(Clone, Copy, PartialEq, Eq)]
pub struct DecodedWord {
    pub decoded: Decoded,
    pub word: Order,
}

// A coordinate, the number that is left for the later ones, and what these must leave.
#[derive(Clone, Copy)]
struct Choice {
    value: usize,
    number: u32,
    residue: usize,
}

// The number of choices with a lower coordinate, and what the later coordinates must leave.
#[derive(Clone, Copy)]
struct Passed {
    count: u32,
    residue: usize,
}

// K(n), the number of codewords of n cells.
#[tactic(auto, unfolding(order::specs::Refusals::number_of, order::specs::Refusals::answer, crate::specs::Symbols::words_of))]
pub fn words(n: usize) -> Result<u32, Refusal>
    ensures { told_words result ≡ words_of n }
{
    Ok(Counts::new(Size::new(n)?).words())
}

// The codeword of a number, as an order.
#[tactic(auto, unfolding(order::specs::Refusals::number_of, order::specs::Refusals::answer, crate::specs::Symbols::codeword_of))]
pub fn codeword(n: usize, symbol: u32) -> Result<Order, Refusal>
    ensures { told_order result ≡ codeword_of n symbol }
{
    let counts = Counts::new(Size::new(n)?);
    if counts.words() <= symbol {
        return Err(Refusal::NoSymbol);
    }
    insertion::from_coordinates(word(counts, symbol))
}

// The coordinates of the codeword of a number.
fn word(counts: Counts, symbol: u32) -> Coordinates
    requires { symbol < K counts.n }
    ensures { result ≡ held (word_at counts.n symbol) }
{
    let n = counts.n;
    let mut values = [0u8; 11];
    let mut number = symbol;
    let mut r: usize = 0;
    for i in 1..n {
        let c = choose(counts, i, r, number);
        let v = c.value;
        values[i - 1] = v as u8;
        number = c.number;
        r = c.residue;
    }
    Coordinates { len: n - 1, values }
}

// Coordinate i of the choice that is the given one among those of coordinates i to n - 1 that leave r. Here and in `pass`, i and r are handed apart from the
// counts: both change at each turn of the callers' loops, where the counts stay, and `Choosing` (specs/Steps) speaks of the three numbers.
fn choose(counts: Counts, i: usize, r: usize, number: u32) -> Choice
    requires choosing { Choosing counts.n i r }
    requires number_bound { number < tails counts.n i r }
    ensures { Chosen counts.n i r number result }
{
    let n = counts.n;
    let mut left = number;
    let mut s = r;
    for v in 0..i {
        let count = counts.tail(i + 1, s);
        if left < count {
            return Choice {
                value: v,
                number: left,
                residue: s,
            };
        }
        left -= count;
        s = residue_after(n, i, s);
    }
    // none below i is the one
    Choice {
        value: i,
        number: left,
        residue: s,
    }
}

// What the coordinates after i must leave, where coordinate i is 1 and r is left by all from i on: a difference modulo 2n - 1, with no division.
fn residue_after(n: usize, i: usize, r: usize) -> usize
    requires { Choosing n i r }
    ensures { result ≡ owed (modulus n) i r 1 }
{
    if r < i { r + (2 * n - 1 - i) } else { r - i }
}

// The number of the codeword with these coordinates: the words before it, coordinate by coordinate.
fn number(x: Coordinates) -> u32
    requires { (is_size (x.len + 1) ≡ true) × (is_word (x.len + 1) (take x.len x.values) ≡ true) }
    ensures { result ≡ word_number (x.len + 1) (take x.len x.values) }
{
    let n = x.len + 1;
    let counts = Counts::new(Size { cells: n });
    let mut sum: u32 = 0;
    let mut r: usize = 0;
    for i in 1..n {
        let v = usize::from(x.values[i - 1]);
        let passed = pass(counts, i, r, v);
        sum += passed.count;
        r = passed.residue;
    }
    sum
}

// The choices of coordinates i to n - 1 that leave r and have coordinate i below v.
fn pass(counts: Counts, i: usize, r: usize, v: usize) -> Passed
    requires choosing { Choosing counts.n i r }
    requires v_le_i { v ≤ i }
    ensures { (result.count ≡ before counts.n i r v) × (result.residue ≡ owed (modulus counts.n) i r v) }
{
    let n = counts.n;
    let mut count: u32 = 0;
    let mut s = r;
    for u in 0..v {
        count += counts.tail(i + 1, s);
        s = residue_after(n, i, s);
    }
    Passed { count, residue: s }
}

// The codeword that an order reads as, by its number, and the verdict.
pub fn decode(o: Order) -> Result<Decoded, Refusal>
    ensures { told_decode result ≡ decode_of o }
{
    Ok(corrected(o)?.decoded)
}

// What an order reads as, with the codeword itself.
pub fn corrected(o: Order) -> Result<DecodedWord, Refusal>
    ensures { told_corrected result ≡ corrected_of o }
{
    let found = decoder::nearest(o)?;
    let decoded = Decoded {
        symbol: number(found.coordinates),
        verdict: verdict_at(found.place),
    };
    Ok(DecodedWord {
        decoded,
        word: found.word,
    })
}

// Clean at place 0, else put right at that place.
fn verdict_at(place: u8) -> Verdict
    ensures { result ≡ verdict_at place }
{
    if place == 0 {
        return Verdict::Clean;
    }
    Verdict::PutRight(Rank(place))
}
