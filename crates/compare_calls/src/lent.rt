// The write that fills a lent list of pushes.
use comparing::tally::Tally;
use comparing::{lent, sample};
use group::Group;
use order::Order;

// Lists of 0 to 12 places, two comparisons each.
fn every_room(t: &mut Tally, g: Group, target: Order) {
    for room in 0..13 {
        let mut list = lent::untouched();
        let a = push_list::write_into(g, target, &mut list[..room]);
        let b = naive_calls::machine::write_into(g, target, room);
        lent::compare(t, a, list, b);
    }
}

// Sampled records of n cells, each as it is and forged.
pub fn lists(n: usize) -> Tally {
    let mut t = Tally::default();
    for s in 0..200 {
        let target = sample::target(n, s);
        every_room(&mut t, sample::group(n, s), target);
        every_room(&mut t, sample::forged(n, s), target);
    }
    t
}
