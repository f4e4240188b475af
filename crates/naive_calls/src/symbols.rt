// The one-error code where its words are too many to list: the number of a word by counting those that come before it, a reading by trying
// the order and its neighbour exchanges. Where they are few, a reading by searching all of them.
use code::{Decoded, DecodedWord, Verdict};
use naive::numbers::{byte, is_size, put};
use naive::orders::{cells_of, check_order, coordinates_at, placed, places, with_cells};
use naive::pairs::opposed;
use naive::words::{exchanged, first, first_difference, is_word, left, next_word, word_cells};
use order::{Order, Rank, Refusal};

// There are no more words than lists of coordinates: 12 factorial.
const LISTS: u32 = 479001600;

// Counts so many lists more for each of the first values of coordinate i; without it their weighted sum is this one. Lists are counted by what the
// sum leaves.
fn add_lists(counts: &mut [u32; 23], lists: u32, sum: usize, i: usize, values: usize, n: usize) {
    let mut turned = sum;
    for _ in 0..values {
        if let Some(count) = counts.get_mut(left(turned, n)) {
            *count = count.wrapping_add(lists);
        }
        turned = turned.wrapping_add(i);
    }
}

// The lists that come before one whose weighted sum was this, where its coordinate i is x: those that did so already, with any value of
// coordinate i, and those that have a smaller one there.
fn before_with(counts: &[u32; 23], sum: usize, i: usize, x: usize, n: usize) -> [u32; 23] {
    let mut next = [0; 23];
    add_lists(&mut next, 1, sum, i, x, n);
    for (r, lists) in counts.iter().enumerate() {
        add_lists(&mut next, *lists, r, i, i.wrapping_add(1), n);
    }
    next
}

// How many words come before a list of coordinates in the dictionary.
pub fn words_before(values: [u8; 12], n: usize) -> u32 {
    let mut counts = [0; 23];
    let mut sum: usize = 0;
    for (i, value) in values.iter().enumerate().take(n) {
        let x = usize::from(*value);
        counts = before_with(&counts, sum, i, x, n);
        sum = sum.wrapping_add(i.wrapping_mul(x));
    }
    counts[0]
}

// How many words there are: how many lists of coordinates whose weighted sum leaves 0.
pub fn all_words(n: usize) -> u32 {
    let mut counts = [0; 23];
    counts[0] = 1;
    for i in 0..n.min(12) {
        counts = before_with(&counts, 0, i, 0, n);
    }
    counts[0]
}

// Puts the last value of coordinate i that leaves at most so many words before the list.
fn put_last(values: &mut [u8; 12], n: usize, i: usize, most: u32) {
    for value in (0..=i).rev() {
        put(values, i, byte(value));
        if words_before(*values, n) <= most {
            return;
        }
    }
}

// The last list of coordinates that has at most so many words before it.
fn last_list(n: usize, most: u32) -> [u8; 12] {
    let mut values = [0; 12];
    for i in 0..n.min(12) {
        put_last(&mut values, n, i, most);
    }
    values
}

// The word of a number.
pub fn codeword(n: usize, symbol: u32) -> Result<Order, Refusal> {
    if !is_size(n) {
        return Err(Refusal::Size);
    }
    let values = last_list(n, symbol);
    if words_before(values, n) != symbol || !is_word(values, n) {
        return Err(Refusal::NoSymbol);
    }
    Ok(with_cells(placed(values, n), n))
}

// What a reading says of cells that are near a word: put right at the first rank where they differ.
pub fn found(cells: [u8; 12], word: [u8; 12], n: usize, symbol: u32) -> DecodedWord {
    let verdict = match first_difference(cells, word) {
        0 => Verdict::Clean,
        place => Verdict::PutRight(Rank(place)),
    };
    DecodedWord {
        decoded: Decoded { symbol, verdict },
        word: with_cells(word, n),
    }
}

// The word at distance 0 or 1: the order itself, or one with a neighbour exchange.
pub fn corrected(o: Order) -> Result<DecodedWord, Refusal> {
    check_order(o)?;
    let n = o.len;
    let cells = cells_of(o);
    for k in 0..n {
        let word = exchanged(cells, k);
        let values = coordinates_at(word, n);
        if is_word(values, n) {
            return Ok(found(cells, word, n, words_before(values, n)));
        }
    }
    Err(Refusal::Lost)
}

// The word at distance 0 or 1, looked for among all of them.
pub fn searched(o: Order) -> Result<DecodedWord, Refusal> {
    check_order(o)?;
    let n = o.len;
    let cells = cells_of(o);
    let ranks = places(cells, n);
    let mut l = first(n);
    for symbol in 0..LISTS {
        let at = l.ok_or(Refusal::Lost)?;
        let word = word_cells(at);
        if opposed(ranks, places(word, n), n, 1) < 2 {
            return Ok(found(cells, word, n, symbol));
        }
        l = next_word(at);
    }
    Err(Refusal::Lost)
}
