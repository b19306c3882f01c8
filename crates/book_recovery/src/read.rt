ghost use Rattle.std.specs.Prelude.{◌≡◌, ◌<◌, IsTrue, IfOk, OnOk, OnErr};
ghost use Rattle.page_journal.specs.Scanned.{IsQuiet};
ghost use Rattle.page_journal.specs.Settled.{HasFailed, IsSettled, IsSound, view_of, bodies_in, length_of, is_broken};
ghost use Rattle.book_redo.specs.JournalSpec.Reading.{AreAllBytes};
ghost use Rattle.file_notes.specs.Files.{IsNoted};
ghost use Rattle.book_recovery.specs.Calls.{FindsIn, GivesIn, IsOwnIn};
ghost use Rattle.book_recovery.specs.Found.{IsFoundInOrder, HasStates};
ghost use Rattle.book_recovery.specs.Anew.{KeepsFileOf};
ghost use Rattle.book_recovery.specs.Noting.{KnowsFileOf};
ghost use Rattle.book_recovery.specs.Reading.{IsKept, ReadsSome};

use crate::found::ReadBook;
use crate::sound::SoundReader;
use book_redo::bodies_of_any_format_fit;
use journal_records::records_are_exact;
use page_journal::{DiskFault, Journal};
use std::alloc::Global;
use web_disk::Disk;

/// Makes the book that the records of a journal tell of, for a shelf of this number, and the library of the scripts that they told; and tells
/// whether the shelf follows another one's journal.
///
/// It reads each record once. From format 2 on it runs no script: the record of a page tells the page's state, by itself or as what
/// differs from the state of the page before. In format 1 each page's script is run again. Nothing is written.
/// Where a call of the disk fails, or memory runs out, the journal is as it was.
pub fn read_book<D: Disk>(
    alloc: Global,
    journal: &mut Journal<D>,
    shelf: u32,
) -> Result<ReadBook, DiskFault>
    requires sound { IsSound journal.old }
    requires known { 0 < journal.old.format }
    requires settled { IsTrue D.tells → IsSettled D.view journal.old }
    ensures found { IsTrue D.tells → IfOk result (FindsIn D.view journal.old shelf) }
    // One record more can be taken.
    ensures gives { IsTrue D.tells → IfOk result (GivesIn D.view journal.old shelf) }
    ensures kept { IfOk result (λ read. IsKept shelf read.alone read.seen read.found) }
    ensures handed { IfOk result (ReadsSome journal.old.format shelf) }
    ensures bytes { IsTrue D.tells → OnOk result (AreAllBytes (bodies_in D.view journal.old)) }
    // What follows holds of a disk that does not tell its bytes too.
    ensures in_order { IfOk result (λ read. IsFoundInOrder shelf read.found) }
    ensures noted { IfOk result (λ read. IsNoted read.notes) }
    // What is known of the file is so, where its records make a book.
    ensures notes { IsTrue D.tells →
        IfOk result (KnowsFileOf journal.old.format shelf (bodies_in D.view journal.old)) }
    // Of a file of an older format, these are the bodies that the newest has of its records.
    ensures anew { IsTrue D.tells →
        IfOk result (KeepsFileOf journal.old.format shelf (bodies_in D.view journal.old)) }
    // Where each record is an own one, each page has the state of its chain.
    ensures states { IsTrue D.tells → IsOwnIn D.view journal.old shelf →
        IfOk result (λ read. HasStates read.found) }
    ensures quiet { IsQuiet (view_of D.view journal.old) (view_of D.view journal.new) }
    ensures len { length_of journal.new ≡ length_of journal.old }
    ensures format { journal.new.format ≡ journal.old.format }
    ensures whole { is_broken journal.new ≡ is_broken journal.old }
    ensures sound { IsSound journal.new }
    ensures settled { IsTrue D.tells → IsSettled D.view journal.new }
    ensures cause { OnErr result
        (HasFailed (view_of D.view journal.old) (view_of D.view journal.new)) }
{
    records_are_exact();
    bodies_of_any_format_fit();
    let mut reader = SoundReader::new(alloc, shelf, journal.format());
    journal.for_each(&mut reader)?;
    Ok(reader.finish())
}
