ghost use Rattle.std.specs.Prelude.{◌≡◌, map};
ghost use Rattle.instance_cells.specs.Views.{effect_of};
ghost use Rattle.replay_spec.specs.Admission.{is_one};
ghost use Rattle.replay_spec.specs.Recovery as spec;
ghost use Rattle.instance_book.specs.Views.{used_of};
ghost use Rattle.book_redo.specs.Redo.{are_held, takes_record, opens_on};

use instance_book::{InOrder, KeptPage, Place};
use instance_cells::{Cells, Effect};
use journal_records::PageRecord;

/// Whether effects are on these cells and hold over them.
pub fn are_held(cells: &Cells, effects: &[Effect]) -> bool
    ensures { result ≡ are_held (map effect_of effects.now) cells.now }
{
    if !cells.are_on(effects) {
        return false;
    }
    cells.holds(effects)
}

/// Whether the record of a start can be of a book, whose script begins with these cells: it evicts no page, and its effects are on the
/// cells and hold over them.
pub fn can_open(cells: &Cells, told: &PageRecord) -> bool
    ensures { result ≡ opens_on cells.now told.now }
{
    told.evicted.is_empty() && are_held(cells, &told.effects)
}

// Whether a number is one of these.
fn is_among(number: u64, numbers: &[u64]) -> bool
    ensures { result ≡ is_one number numbers.now }
{
    for other in numbers {
        if *other == number {
            return true;
        }
    }
    false
}

// Whether a page stands and is not evicted.
fn is_used(shown: &InOrder<KeptPage>, page: u64) -> bool
    ensures { result ≡ spec.is_used page (used_of shown.now) }
{
    match shown.page(page) {
        Some(page) => page.item.gone.is_none(),
        None => false,
    }
}

// Whether these pages stand and are not evicted, and none of them is told twice.
fn can_go(shown: &InOrder<KeptPage>, pages: &[u64]) -> bool
    ensures { result ≡ spec.can_go pages.now (used_of shown.now) }
{
    for (place, page) in pages.iter().enumerate() {
        if !is_used(shown, *page) || is_among(*page, &pages[place + 1..]) {
            return false;
        }
    }
    true
}

/// Whether the record of an answer to this page can be of its instance: the pages that it evicts can go, and its effects are on
/// the instance's cells and hold over them.
pub fn takes(place: &Place<'_>, told: &PageRecord) -> bool
    ensures { result ≡ takes_record told.now place.now.instance.now.item }
{
    if !can_go(&place.instance.item.pages, &told.evicted) {
        return false;
    }
    are_held(&place.instance.item.cells, &told.effects)
}
