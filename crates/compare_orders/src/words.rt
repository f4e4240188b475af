// The code: every word in turn, and a sample of orders that each word is held against on the way.
use crate::orders::is_order;
use code::DecodedWord;
use comparing::sample;
use comparing::tally::Tally;
use group::Group;
use naive::orders::{cells_of, places, with_cells};
use naive::pairs::opposed;
use naive::words::{Listing, first, next_word, word_cells};
use naive_calls::symbols::{found, words_before};
use order::{Order, Refusal};
use std::array;

// There are no more lists of coordinates than 12 factorial.
const LISTS: u32 = 479001600;

// Held order k of n cells: any order, a word, a word with one neighbour exchange, or a word with two.
fn sampled(n: usize, k: usize) -> Order {
    let word = sample::word(n, k);
    let once = sample::exchanged(word, n, k);
    match k % 4 {
        0 => sample::order(n, k),
        1 => word,
        2 => once,
        _ => sample::exchanged(once, n, k.wrapping_add(1)),
    }
}

// The held orders of n cells, by their ranks, and which of them a word was near.
#[derive(Clone, Copy)]
struct Held {
    n: usize,
    ranks: [[u8; 12]; 16],
    seen: [bool; 16],
}

// Three comparisons of what is read at sampled order k: decoded, and read and scrubbed in a group that shows it.
fn each_reading(t: &mut Tally, n: usize, k: usize, r: Result<DecodedWord, Refusal>) {
    let o = sampled(n, k);
    let low = sample::low_group(n, k);
    let g = naive_calls::machine::write(low, o).map_or(low, |w| w.group);
    t.compare(code::corrected(o), r);
    t.compare(engine::read(g), r.map(|c| c.decoded));
    t.compare(engine::scrub(g), naive_calls::machine::scrubbed(g, r));
}

impl Held {
    fn new(n: usize) -> Self {
        Held {
            n,
            ranks: array::from_fn(|k| places(cells_of(sampled(n, k)), n)),
            seen: [false; 16],
        }
    }

    // The readings of those that are near this word.
    fn met(&mut self, t: &mut Tally, cells: [u8; 12], symbol: u32) {
        let n = self.n;
        let word = places(cells, n);
        for (k, ranks) in self.ranks.iter().enumerate() {
            if opposed(*ranks, word, n, 1) < 2 {
                let r = found(cells_of(sampled(n, k)), cells, n, symbol);
                each_reading(t, n, k, Ok(r));
                self.seen[k] = true;
            }
        }
    }

    // The readings of those that no word was near.
    fn lost(&self, t: &mut Tally) {
        for (k, near) in self.seen.iter().enumerate() {
            if !*near {
                each_reading(t, self.n, k, Err(Refusal::Lost));
            }
        }
    }
}

// Five comparisons of a word that stands at this place of the list: the naive count of the words before it, the word, what it reads as, and a
// store of it that is accepted and one that is worn.
fn each_word(t: &mut Tally, l: Listing, cells: [u8; 12], symbol: u32) {
    let n = l.n;
    let order = with_cells(cells, n);
    t.compare(Ok(symbol), Ok(words_before(l.values, n)));
    t.compare(code::codeword(n, symbol), Ok(order));
    t.compare(code::corrected(order), Ok(found(cells, cells, n, symbol)));
    store(t, sample::low_group(n, symbol as usize), symbol, order);
    store(t, sample::worn_group(n, symbol as usize), symbol, order);
}

// One comparison of a symbol stored, whose word is known.
fn store(t: &mut Tally, g: Group, symbol: u32, word: Order) {
    t.compare(
        engine::store(g, symbol),
        naive_calls::machine::stored(g, Ok(word)),
    );
}

fn no_word(t: &mut Tally, n: usize, symbol: u32, refusal: Refusal) {
    t.compare(code::codeword(n, symbol), Err(refusal));
}

// What is left when the list of words ends after count of them: the count itself, the two symbols that follow, and the last number.
fn ended(t: &mut Tally, n: usize, count: u32) {
    t.compare(code::words(n), Ok(count));
    for symbol in [count, count.wrapping_add(1), u32::MAX] {
        no_word(t, n, symbol, Refusal::NoSymbol);
    }
}

// Of how many words one is compared.
fn stride(n: usize) -> u32 {
    match n {
        0..=9 => 1,
        10 => 16,
        11 => 256,
        _ => 4096,
    }
}

// One way through all words of n cells. One word in `stride` is compared, and each sampled order once: where a word is near it, or
// at the end.
pub fn through(n: usize) -> Tally {
    let mut t = Tally::default();
    let mut held = Held::new(n);
    let mut next = first(n);
    for symbol in 0..LISTS {
        let Some(l) = next else {
            held.lost(&mut t);
            ended(&mut t, n, symbol);
            break;
        };
        let cells = word_cells(l);
        if symbol.checked_rem(stride(n)) == Some(0) {
            each_word(&mut t, l, cells, symbol);
        }
        held.met(&mut t, cells, symbol);
        next = next_word(l);
    }
    t
}

// Four comparisons: new groups of this size, with the lowest and the highest endurance and with the two just outside.
fn opens(t: &mut Tally, n: usize) {
    for endurance in [0, 1, 1000000, 1000001] {
        t.compare(
            changes::open(n, endurance),
            naive_calls::machine::open(n, endurance),
        );
    }
}

// Twelve comparisons: of a size that no group has, the number of words, a word, new groups, and whether zeros are an order; and new groups of
// size k.
fn each_size(t: &mut Tally, k: usize) {
    let n = sample::size(k);
    t.compare(code::words(n), Err(Refusal::Size));
    no_word(t, n, 0, Refusal::Size);
    opens(t, n);
    is_order(t, with_cells([0; 12], 0), n);
    is_order(t, with_cells([0; 12], n), n);
    opens(t, k);
}

pub fn every_size() -> Tally {
    let mut t = Tally::default();
    for k in 0..20 {
        each_size(&mut t, k);
    }
    t
}
