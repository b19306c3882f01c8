ghost use Rattle.std.specs.Prelude.{◌≡◌, option_map, IfOk};
ghost use Rattle.replay_spec.specs.Marks.{use_of};
ghost use Rattle.replay_spec.specs.Change.{used_by};
ghost use Rattle.replay_spec.specs.Eviction.{least, least_used, goes_for};
ghost use Rattle.instance_book.specs.Views.{mark_of, used_of};
ghost use Rattle.book_visits.specs.Uses.{read_use, read_uses, used_one, use_after};

use instance_book::{InOrder, KeptPage, Numbered};
use std::alloc::{AllocError, Global};

/// The use of a page that is not evicted.
#[derive(Clone, Copy)]
pub struct PageUse {
    pub page: u64,
    /// The greatest number of a segment that showed or answered it.
    pub last: u64,
}

// Of a use and others the least; of several such the first.
fn least(first: PageUse, others: &[PageUse]) -> PageUse
    ensures { read_use result ≡ least (read_use first) (read_uses others.now) }
{
    let mut least = first;
    for other in others {
        if other.last < least.last {
            least = *other;
        }
    }
    least
}

// So many pages of these uses, the least used first.
fn least_used(alloc: Global, uses: Vec<PageUse>, count: usize) -> Result<Vec<u64>, AllocError>
    ensures { IfOk result (λ pages. pages.items ≡ least_used count (read_uses uses.items)) }
{
    let mut left = uses;
    let mut pages = Vec::new(alloc);
    while pages.len() < count {
        let Some(first) = left.first() else {
            return Ok(pages);
        };
        let page = least(*first, &left[1..]).page;
        left.retain(|other| other.page != page);
        pages.push(page)?;
    }
    Ok(pages)
}

// The use of a page, where a segment of this number answers one.
fn use_by(page: &Numbered<KeptPage>, answered: u64, number: u64) -> PageUse
    ensures { read_use result ≡ used_one answered number (use_of (mark_of page.now)) }
{
    let last = page.item.last;
    if page.number == answered {
        PageUse {
            page: page.number,
            last: last.max(number),
        }
    } else {
        PageUse {
            page: page.number,
            last,
        }
    }
}

// The use of a page, where a segment of this number answers one, if the page is not evicted.
fn use_after(page: &Numbered<KeptPage>, answered: u64, number: u64) -> Option<PageUse>
    ensures { option_map read_use result ≡ use_after answered number (mark_of page.now) }
{
    match page.item.gone {
        Some(_) => None,
        None => Some(use_by(page, answered, number)),
    }
}

// The uses of the pages that are not evicted, where a segment of this number answers one.
fn uses_after(
    alloc: Global,
    pages: &InOrder<KeptPage>,
    answered: u64,
    number: u64,
) -> Result<Vec<PageUse>, AllocError>
    ensures { IfOk result
        (λ uses. read_uses uses.items ≡ used_by answered number (used_of pages.now)) }
{
    let mut uses = Vec::new(alloc);
    for page in pages.as_slice() {
        if let Some(used) = use_after(page, answered, number) {
            uses.push(used)?;
        }
    }
    Ok(uses)
}

/// So many pages of those that are not evicted, the least used first, once the segment of this number answered one.
pub fn first_to_go(
    alloc: Global,
    shown: &InOrder<KeptPage>,
    answered: u64,
    number: u64,
    count: usize,
) -> Result<Vec<u64>, AllocError>
    ensures { IfOk result (λ pages.
        pages.items ≡ least_used count (used_by answered number (used_of shown.now))) }
{
    let used = uses_after(alloc, shown, answered, number)?;
    least_used(alloc, used, count)
}

/// The pages that go where the segment of this number answers one and shows a page, so that no more than so many are left.
pub fn goes_for(
    alloc: Global,
    shown: &InOrder<KeptPage>,
    answered: u64,
    number: u64,
    limit: u32,
) -> Result<Vec<u64>, AllocError>
    ensures { IfOk result
        (λ pages. pages.items ≡ goes_for limit answered number (used_of shown.now)) }
{
    let uses = uses_after(alloc, shown, answered, number)?;
    let count = (uses.len() + 1).saturating_sub(limit as usize);
    least_used(alloc, uses, count)
}
