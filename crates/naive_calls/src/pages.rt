// Pages of groups (document 02, request (d)). The groups are called from the last one down, whatever the others answer, so that the refusal which is
// left is that of the first group that has one.
use crate::machine::{read, store};
use group::Group;
use naive::numbers::{at, put};
use order::Refusal;
use page::{Page, PageRead, PageRefusal};
use page_store::PageStored;

// The refusal of the page itself, or of how many symbols there are.
const NO_PAGE: PageRefusal = PageRefusal {
    refusal: Refusal::NoPage,
    group: 0,
};

// Whether a page has groups, and each but the last has the n of the next.
fn is_page(page: &Page) -> bool {
    let next = page.groups.iter().skip(1);
    let mut pairs = page
        .groups
        .iter()
        .zip(next)
        .take(page.count.wrapping_sub(1));
    (1..=8).contains(&page.count) && pairs.all(|(g, h)| g.n == h.n)
}

// A call of each group with its index, and the first group's refusal.
fn each_group<F: FnMut(usize, Group) -> Result<(), Refusal>>(
    page: &Page,
    mut call: F,
) -> Result<(), PageRefusal>
    requires { F.IsAlwaysCallable call }
{
    let mut left = Ok(());
    for (i, group) in page.groups.iter().enumerate().take(page.count).rev() {
        if let Err(refusal) = call(i, *group) {
            left = Err(PageRefusal {
                refusal,
                group: i.wrapping_add(1),
            });
        }
    }
    left
}

pub fn store_page(page: Page, symbols: &[u32]) -> Result<PageStored, PageRefusal> {
    if !is_page(&page) || symbols.len() != page.count {
        return Err(NO_PAGE);
    }
    let mut stored = PageStored { page, pulses: 0 };
    each_group(&page, |i, group| {
        let w = store(group, at(symbols, i))?;
        put(&mut stored.page.groups, i, w.group);
        stored.pulses = stored.pulses.wrapping_add(w.pulses);
        Ok(())
    })?;
    Ok(stored)
}

pub fn read_page(page: Page) -> Result<PageRead, PageRefusal> {
    if !is_page(&page) {
        return Err(NO_PAGE);
    }
    let mut symbols = [0; 8];
    each_group(&page, |i, group| {
        put(&mut symbols, i, read(group)?.symbol);
        Ok(())
    })?;
    Ok(PageRead {
        count: page.count,
        symbols,
    })
}
