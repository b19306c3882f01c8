//! The opening of a shelf that follows another one's journal.
ghost use Rattle.std.specs.Prelude.{◌≡◌};
ghost use Rattle.file_copies.specs.OfFileNotes.Files.{IsNoted};
ghost use Rattle.shelf.specs.Fed.{follower_of, IsFedOf};

use crate::begin::BeginFault;
use crate::follower::{Fed, Follower};
use book_recovery::Found;
use book_recovery::books::{Book, InOrder};
use file_copies::FileNotes;
use script_nodes::{Library, Setup};
use std::alloc::Global;

/// What a shelf keeps beside its book, of whose records this was found: the numbers that they told of, and how far it was fed.
pub fn follower_of(found: &Found, alone: bool, seen: InOrder<()>) -> Follower
    ensures { result ≡ follower_of found.now alone seen }
{
    let fed = match found {
        Found::Made { .. } => { if alone { Fed::Begun } else { Fed::Made } }
        _ => Fed::Waits,
    };
    Follower {
        seen,
        fed,
        fallen: None,
    }
}

/// The book and the scripts that a shelf goes on with that follows, of whose records this was found. It is told no setup; where it was fed no
/// record, it has no scripts.
pub fn go_on_fed(
    alloc: Global,
    number: u32,
    found: Found,
    known: FileNotes,
    notes: &mut FileNotes,
) -> Result<(Book, Library), BeginFault>
    requires noted { IsNoted known }
    ensures found { IsFedOf number found known notes.new result }
    ensures noted { IsNoted notes.new }
{
    match found {
        Found::Made { book, library } => {
            *notes = known;
            Ok((book, library))
        }
        Found::Nothing => {
            *notes = FileNotes::none(alloc);
            let none = Setup::new(Vec::new(alloc));
            Ok((Book::empty(alloc, number), Library::of(none)))
        }
        Found::Damaged { place } => {
            *notes = known;
            Err(BeginFault::Damaged { place })
        }
        Found::Other { place } => {
            *notes = known;
            Err(BeginFault::Other { place })
        }
        Found::Memory => {
            *notes = known;
            Err(BeginFault::Memory)
        }
    }
}
