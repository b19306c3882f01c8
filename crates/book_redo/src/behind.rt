ghost use Rattle.std.specs.Prelude.{IfOk, IfSome};
ghost use Rattle.script_nodes.specs.Views.{library_of};
ghost use Rattle.instance_book.specs.Makes.{HasPlaces, HasSomeStates};
ghost use Rattle.journal_records.specs.Views.{page_change};
ghost use Rattle.book_redo.specs.Behind.{IsStoredFrom, StartsBehind, AnswersBehind, TellsBehind, OwnsAnswer, OwnsBehind, IsWrittenBehind, IsSpelledBehind};

use instance_book::{Book, KeptState, kept_are_written, next_links, origin_at, place_of_numbers};
use journal_records::{Origin as ToldOrigin, PageRecord};
use machine_states::{Origin, Suspended};
use script_nodes::{Library, NamedScript};
use script_value::Bytes;
use std::alloc::{AllocError, Global};

/// What the page of a record goes on from.
#[derive(Drop)]
pub struct Behind<'a> {
    /// The state of the page that is answered, or the start of the script.
    pub from: Origin,
    /// How many links the page is from one whose state is kept by itself.
    pub links: u8,
    /// The script of the page.
    pub script: &'a NamedScript,
}

// The start of the script of this place in the present setup.
fn at_start(library: &Library, script: u8) -> Option<Behind<'_>>
    ensures { StartsBehind (library_of library.now) script result }
{
    let place = library.start(script as usize)?;
    let script = library.get(place)?;
    Some(Behind {
        from: Origin::Start,
        links: 0,
        script,
    })
}

// What an answer to this page goes on from.
fn at_answer<'a>(
    alloc: Global,
    book: &'a Book,
    library: &'a Library,
    instance: u64,
    page: u64,
) -> Result<Option<Behind<'a>>, AllocError>
    requires placed { HasPlaces (library_of library.now).all book.now }
    requires kept { HasSomeStates (library_of library.now).all book.now }
    ensures told { IfOk result (AnswersBehind (library_of library.now) book.now instance page) }
    ensures own { IfOk result (OwnsAnswer (library_of library.now) book.now instance page) }
    ensures stored { IfOk result (λ found. IfSome found IsStoredFrom) }
{
    let Some(place) = place_of_numbers(book, library, instance, page) else {
        return Ok(None);
    };
    let from = origin_at(alloc, place.script, &place.instance.item.pages, place.page)?;
    Ok(Some(Behind {
        from,
        links: next_links(place.page.item.state.links),
        script: place.script,
    }))
}

/// What the page of a record goes on from; none where it is of no script or answers no page that stands.
pub fn behind_of<'a>(
    alloc: Global,
    book: &'a Book,
    library: &'a Library,
    page: &PageRecord,
) -> Result<Option<Behind<'a>>, AllocError>
    requires placed { HasPlaces (library_of library.now).all book.now }
    requires kept { HasSomeStates (library_of library.now).all book.now }
    ensures told { IfOk result
        (TellsBehind (library_of library.now) book.now (page_change page.now)) }
    ensures own { IfOk result
        (OwnsBehind (library_of library.now) book.now (page_change page.now)) }
    ensures stored { IfOk result (λ found. IfSome found IsStoredFrom) }
{
    match &page.origin {
        ToldOrigin::Start { script } => Ok(at_start(library, *script)),
        ToldOrigin::Answer { instance, page, .. } => {
            at_answer(alloc, book, library, *instance, *page)
        }
    }
}

impl Behind<'_> {
    /// The state that the page's is written after: that of the page that is answered, where the links ask for it.
    pub fn before(&self) -> Option<&Suspended>
        ensures { IsWrittenBehind self.now result }
    {
        if self.links == 0 {
            return None;
        }
        match &self.from {
            Origin::Start => None,
            Origin::Page(state) => Some(state),
        }
    }

    /// The bytes that a record of the newest format has of the page's state; none where none tells it there.
    pub fn spelled(&self, alloc: Global, state: &Suspended) -> Result<Option<Bytes>, AllocError>
        ensures { IfOk result (IsSpelledBehind self.now state.now) }
    {
        kept_are_written();
        let kept = KeptState::of(alloc, &self.from, self.links, state)?;
        match kept.bytes() {
            Some(bytes) => Ok(Some(Bytes::new(bytes.to_vec(alloc)?))),
            None => Ok(None),
        }
    }
}
