// The shared write that fills a lent list of pushes.
use comparing::tally::Tally;
use comparing::{lent, sample};

// 200 sampled targets of each size, every second one for a forged record, and lists of 0 to 12 places, two comparisons each.
pub fn lists() -> Tally {
    let mut t = Tally::default();
    for s in 0..2000 {
        let n = 3 + s / 200;
        let g = match s % 2 {
            0 => sample::group(n, s),
            _ => sample::forged(n, s),
        };
        let target = sample::shared(n, s);
        for room in 0..13 {
            let mut list = lent::untouched();
            let a = push_list::write_shared_into(g, target, &mut list[..room]);
            let b = naive_calls::shared::write_shared_into(g, target, room);
            lent::compare(&mut t, a, list, b);
        }
    }
    t
}
