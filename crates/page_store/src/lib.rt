// The page store (document 02, request (d)): one symbol a group is stored in all groups of a page or in none. The page goes in by value and comes back
// by value. The public function takes any record and any list and answers them by one equation with a definition of specs/. What demand 3 says of the
// groups of a page is a theorem of `page_laws`.
#![tactic(auto)]

ghost use Rattle.std.specs.Prelude.{◌≡◌, true};
ghost use Rattle.page_store.specs.StoreAnswer.{takes, told_stored, store_page_of};

use order::Refusal;
use page::{Page, PageRefusal};

// The page as a page store that went through left it.
#[derive(Clone, Copy, PartialEq, Eq)]
pub struct PageStored {
    pub page: Page,
    pub pulses: u32,
}

// A page with one symbol a group stored, in all of its groups or in none: a refused store leaves the page as it is. The refusal names the first group that
// refuses, 0 where it is no page or there is not one symbol a group.
pub fn store_page(page: Page, symbols: &[u32]) -> Result<PageStored, PageRefusal>
    ensures { told_stored page result ≡ store_page_of page symbols.now }
{
    if !page::is_page(page) || symbols.len() != page.count {
        return Err(PageRefusal {
            refusal: Refusal::NoPage,
            group: 0,
        });
    }
    store_each(page, symbols)
}

// The groups are stored to in turn, in a copy, up to the first that refuses. One loop here and one in `page::read_each`: the calls answer different types.
fn store_each(page: Page, symbols: &[u32]) -> Result<PageStored, PageRefusal>
    requires { takes page symbols.now ≡ true }
    ensures { told_stored page result ≡ store_page_of page symbols.now }
{
    let mut groups = page.groups;
    let mut pulses = 0;
    for (i, symbol) in symbols.iter().enumerate() {
        let written = engine::store(page.groups[i], *symbol).map_err(|refusal| PageRefusal {
            refusal,
            group: i + 1,
        })?;
        groups[i] = written.group;
        pulses += written.pulses;
    }
    Ok(PageStored {
        page: Page {
            count: page.count,
            groups,
        },
        pulses,
    })
}
