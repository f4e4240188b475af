// A page of groups (document 02, request (d)): the record, whether it is a page, and the page read. A page is handed in by value. Every public function
// takes any record and answers it by one equation with a definition of specs/.
#![tactic(auto)]

ghost use Rattle.std.specs.Prelude.{◌≡◌, ◌==◌, true};
ghost use Rattle.std.specs.List.{list_all};
ghost use Rattle.page.specs.Pages.{is_page, told_page_read, read_page_of};

use group::Group;
use order::Refusal;

// The groups 1 to count, group k at index k - 1. What stands after them is not looked at, and comes back as it was. Fixed
// places with a count: see `order::Order`.
#[derive(Clone, Copy, PartialEq, Eq)]
pub struct Page {
    pub count: usize,
    pub groups: [Group; 8],
}

// What a page read found: how many symbols, and that of group k at index k - 1, with zeros after them. Fixed places
// with a count: see `order::Order`.
#[derive(Clone, Copy, PartialEq, Eq)]
pub struct PageRead {
    pub count: usize,
    pub symbols: [u32; 8],
}

// The refusal of a page call, and the first group that refuses: 0 where it is no page, as document 02 has it and `unread`, `none_stored` tell.
#[derive(Clone, Copy, PartialEq, Eq)]
pub struct PageRefusal {
    pub refusal: Refusal,
    pub group: usize,
}

// Whether it is 1 to 8 records with the same n. Whether each of them is a group is asked by the calls, group by group.
#[tactic(auto, unfolding(crate::specs::Pages::is_page))]
pub fn is_page(page: Page) -> bool
    ensures { result ≡ is_page page }
{
    (1..=8).contains(&page.count) && have_n(&page.groups[..page.count], page.groups[0].n)
}

// Whether each of these records has n cells.
fn have_n(groups: &[Group], n: usize) -> bool
    ensures { result ≡ list_all (λ g. g.n == n) groups.now }
{
    groups.iter().all(|g| g.n == n)
}

// The symbols of all groups, or the first refusal and its group.
pub fn read_page(page: Page) -> Result<PageRead, PageRefusal>
    ensures { told_page_read result ≡ read_page_of page }
{
    if !is_page(page) {
        return Err(PageRefusal {
            refusal: Refusal::NoPage,
            group: 0,
        });
    }
    read_each(page)
}

// The groups are read in turn, up to the first that refuses. One loop here and one in `page_store::store_each`: the calls answer different types.
fn read_each(page: Page) -> Result<PageRead, PageRefusal>
    requires { is_page page ≡ true }
    ensures { told_page_read result ≡ read_page_of page }
{
    let mut symbols = [0u32; 8];
    for (i, g) in page.groups[..page.count].iter().enumerate() {
        let decoded = engine::read(*g).map_err(|refusal| PageRefusal {
            refusal,
            group: i + 1,
        })?;
        symbols[i] = decoded.symbol;
    }
    Ok(PageRead {
        count: page.count,
        symbols,
    })
}
