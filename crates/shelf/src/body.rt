ghost use Rattle.std.specs.Prelude.{◌≡◌, length, IsTrue, IfOk, OnOk};
ghost use Rattle.web_disk.specs.View.{NoNewImage, Elapses};
ghost use Rattle.page_journal.specs.Settled.{IsSettled, IsReady, IsSound, view_of, length_of, is_broken};
ghost use Rattle.book_visits.specs.Changes.{IsSpelledIn};
ghost use Rattle.file_copies.specs.OfFileNotes.Files.{IsNoted, HasRoom, StaysAsTold};
ghost use Rattle.shelf.specs.Recording.{CanBeTold, IsToldBody, IsKeptIn, BindsIn};

use crate::recording::{recorded, told_state, written};
use book_recovery::books::Change;
use book_visits::Ticket;
use file_copies::FileNotes;
use page_journal::Journal;
use script_value::{Bytes, Reply};
use std::alloc::Global;
use web_disk::Disk;

/// The body of the record of a visit's change, for which the journal and the notes of its file are made ready; or why it can't be added.
/// No call of the disk is made that could fail.
pub fn told_body<D: Disk>(
    alloc: Global,
    journal: &mut Journal<D>,
    notes: &mut FileNotes,
    ticket: &Ticket,
    change: &Change,
) -> Result<Bytes, Reply>
    requires sound { IsSound journal.old }
    requires settled { IsTrue D.tells → IsSettled D.view journal.old }
    requires noted { IsNoted notes.old }
    requires kept { IsKeptIn ticket.now change.now }
    requires spelled { CanBeTold (length_of journal.old) ticket.now change.now }
    ensures written { IsToldBody (length_of journal.old) ticket.now change.now result }
    ensures spelled { OnOk result (IsSpelledIn change.now) }
    ensures binds { OnOk result (BindsIn ticket.now change.now) }
    ensures ready { IfOk result (λ body. IsReady D.view journal.new (length body)) }
    ensures note { OnOk result (HasRoom notes.new.notes) }
    ensures told { StaysAsTold notes.old notes.new }
    ensures noted { IsNoted notes.new }
    ensures format { journal.new.format ≡ journal.old.format }
    ensures sound { IsSound journal.new }
    ensures settled { IsTrue D.tells → IsSettled D.view journal.new }
    ensures len { length_of journal.new ≡ length_of journal.old }
    ensures whole { is_broken journal.new ≡ is_broken journal.old }
    ensures seen { (view_of D.view journal.new).seen ≡ (view_of D.view journal.old).seen }
    ensures images { NoNewImage (view_of D.view journal.old) (view_of D.view journal.new) }
    ensures time { Elapses (view_of D.view journal.old) (view_of D.view journal.new) }
    ensures faults { (view_of D.view journal.new).faults ≡ (view_of D.view journal.old).faults }
{
    match told_state(ticket, change) {
        Ok(state) => written(alloc, journal, notes, &recorded(change, state)),
        Err(_) => Err(Reply::Memory),
    }
}
