// A page read and stored to, by the engine and by the second implementation.
use comparing::tally::Tally;
use group::Group;
use page::{Page, PageRefusal};

// Eight records of a page, and nine symbols, of which a page store is given some.
#[derive(Clone, Copy)]
pub struct Case {
    pub groups: [Group; 8],
    pub symbols: [u32; 9],
}

// One comparison of two answers about a page, and of the group that a refusal names.
fn same<T: PartialEq + Copy>(t: &mut Tally, a: Result<T, PageRefusal>, b: Result<T, PageRefusal>) {
    let beside = a == b;
    t.compare_and(
        a.map_err(|refused| refused.refusal),
        b.map_err(|refused| refused.refusal),
        beside,
    );
}

fn read(t: &mut Tally, page: Page) {
    same(
        t,
        page::read_page(page),
        naive_calls::pages::read_page(page),
    );
}

// Three comparisons of the page with this count: it is read, stored to with so many symbols, and the page that this leaves is read. What stands after the
// groups of a page is compared too.
pub fn compared(t: &mut Tally, case: Case, count: usize, len: usize) {
    let page = Page {
        count,
        groups: case.groups,
    };
    read(t, page);
    let symbols = &case.symbols[..len.min(9)];
    let a = page_store::store_page(page, symbols);
    same(t, a, naive_calls::pages::store_page(page, symbols));
    read(t, a.map_or(page, |stored| stored.page));
}
