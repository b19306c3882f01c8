ghost use Rattle.std.specs.Prelude.{◌≡◌, ◌≤◌, ◌+◌, ◌^◌, false, length, option_map, IsTrue, IfOk, IfErr, OnOk, OnErr};
ghost use Rattle.web_outside.specs.Causes.{Rose};
ghost use Rattle.web_disk.specs.View.{NoNewImage, Elapses};
ghost use Rattle.page_journal.specs.Calls.{HasAppended};
ghost use Rattle.shelf.specs.Calls.{AddsThroughout};
ghost use Rattle.page_journal.specs.Records.{newest};
ghost use Rattle.value_bytes.specs.Laws.{AreBytes};
ghost use Rattle.page_journal.specs.Settled.{IsSettled, IsReady, IsSound, view_of, length_of, length_with, is_broken};
ghost use Rattle.journal_records.specs.Records.{changes};
ghost use Rattle.journal_records.specs.Views.{recorded_of};
ghost use Rattle.book_visits.specs.Views.{reply_of};
ghost use Rattle.book_recovery.specs.InstanceBook.Changes.{change_of};
ghost use Rattle.book_visits.specs.Changes.{IsSpelledIn};
ghost use Rattle.book_recovery.specs.InstanceBook.KeptStates.Kept.{kept_of};
ghost use Rattle.machine_states.specs.Views.{suspended_of};
ghost use Rattle.file_copies.specs.OfFileNotes.Files.{IsNoted, HasRoom, StaysAsTold};
ghost use Rattle.shelf.specs.Recording.{refusal_of_size, CanBeWritten, IsWritten, IsStateFor, IsLentAs, IsKeptIn, WhereTold, BindsIn, told_in, lent};

use crate::nesting::nests_shallow;
use book_recovery::books::{Change, KeptState, kept_are_written};
use book_visits::Ticket;
use file_copies::FileNotes;
use journal_records::{Recorded, encode, record_length};
use machine_states::Suspended;
use page_journal::{AppendFault, Journal, MAX_LEN};
use script_value::{Bytes, Reply};
use std::alloc::{AllocError, Global};
use web_disk::Disk;

/// The greatest length of a record's body, in bytes.
pub const MOST_OF_RECORD: u64 = 1_048_576;

// The bytes that are kept of a state, after another one or by itself; none where a value nests too deep to be written. One that is
// kept as it is for another cause is told as want of memory.
fn state_bytes<'k>(kept: &'k KeptState, state: &Suspended) -> Result<Option<&'k [u8]>, AllocError>
    ensures { IfOk result (IsLentAs (suspended_of state.now) (kept_of kept.now).form) }
{
    if let Some(bytes) = kept.bytes() {
        return Ok(Some(bytes));
    }
    if nests_shallow(state) {
        return Err(AllocError);
    }
    Ok(None)
}

/// The bytes of the state of the page that a change shows, for its record; none where it shows no page, or a value of the state nests
/// too deep to be written. The ticket is that of the change.
pub fn told_state<'c>(ticket: &Ticket, change: &'c Change) -> Result<Option<&'c [u8]>, AllocError>
    requires kept { IsKeptIn ticket.now change.now }
    ensures told { IfOk result (λ bytes. lent bytes ≡ told_in ticket.now change.now) }
    ensures binds { WhereTold result (BindsIn ticket.now change.now) }
    ensures spelled { WhereTold result (IsSpelledIn change.now) }
{
    kept_are_written();
    match change {
        Change::Opens(opening) => state_bytes(&opening.page.item.state, &opening.state),
        Change::Extends(extension) => {
            state_bytes(&extension.show.page.item.state, &extension.state)
        }
        Change::Ends(_) => Ok(None),
        Change::Finishes(_) => Ok(None),
    }
}

/// What the record of a visit's change says, where these are the bytes of its state.
pub fn recorded<'r>(change: &'r Change, state: Option<&'r [u8]>) -> Recorded<'r>
    requires { IsStateFor change.now (lent state) }
    ensures { recorded_of result ≡ changes (change_of change.now) (lent state.entry) }
{
    match change {
        Change::Opens(opening) => Recorded::Page {
            page: &opening.record,
            state,
        },
        Change::Extends(extension) => Recorded::Page {
            page: &extension.record,
            state,
        },
        Change::Ends(ending) => Recorded::Ended(&ending.record),
        Change::Finishes(finish) => Recorded::Finish(&finish.record),
    }
}

// Why a record of this length can't be added to a journal of this one.
fn refused(journal: u64, size: u64) -> Option<Reply>
    requires { journal ≤ 2 ^ 30 }
    ensures { option_map reply_of result ≡ refusal_of_size journal size }
{
    if size > MOST_OF_RECORD {
        return Some(Reply::Oversize(size));
    }
    let longer = journal + (size + 5);
    if longer > MAX_LEN {
        return Some(Reply::JournalFull(longer));
    }
    None
}

/// The body of a record, for which the journal and the notes of its file are made ready; or why it can't be added. No call of the disk
/// is made that could fail.
pub fn written<D: Disk>(
    alloc: Global,
    journal: &mut Journal<D>,
    notes: &mut FileNotes,
    line: &Recorded<'_>,
) -> Result<Bytes, Reply>
    requires sound { IsSound journal.old }
    requires settled { IsTrue D.tells → IsSettled D.view journal.old }
    requires noted { IsNoted notes.old }
    requires spelled { CanBeWritten (length_of journal.old) (recorded_of line.now) }
    ensures written { IsWritten (length_of journal.old) (recorded_of line.now) result }
    ensures ready { IfOk result (λ body. IsReady D.view journal.new (length body)) }
    ensures note { OnOk result (HasRoom notes.new.notes) }
    ensures told { StaysAsTold notes.old notes.new }
    ensures noted { IsNoted notes.new }
    ensures format { journal.new.format ≡ journal.old.format }
    ensures sound { IsSound journal.new }
    ensures settled { IsTrue D.tells → IsSettled D.view journal.new }
    ensures len { length_of journal.new ≡ length_of journal.old }
    ensures whole { is_broken journal.new ≡ is_broken journal.old }
    ensures seen { (view_of D.view journal.new).seen ≡ (view_of D.view journal.old).seen }
    ensures images { NoNewImage (view_of D.view journal.old) (view_of D.view journal.new) }
    ensures time { Elapses (view_of D.view journal.old) (view_of D.view journal.new) }
    ensures faults { (view_of D.view journal.new).faults ≡ (view_of D.view journal.old).faults }
{
    let size = record_length(line);
    if let Some(reply) = refused(journal.len(), size) {
        return Err(reply);
    }
    let Ok(body) = encode(alloc, line) else {
        return Err(Reply::Memory);
    };
    if notes.room().is_err() {
        return Err(Reply::Memory);
    }
    match journal.room(body.len() as u32) {
        Ok(()) => Ok(body),
        Err(_) => Err(Reply::Memory),
    }
}

/// Adds a body for which the journal is ready. It takes no memory. Where the disk fails, it tells how often it has.
pub fn added<D: Disk>(journal: &mut Journal<D>, body: &[u8]) -> Result<(), u64>
    requires sound { IsSound journal.old }
    requires settled { IsTrue D.tells → IsSettled D.view journal.old }
    requires newest { journal.old.format ≡ newest }
    requires whole { is_broken journal.old ≡ false }
    requires ready { IsReady D.view journal.old (length body.now) }
    requires short { length_with journal.old body.now ≤ 2 ^ 30 }
    ensures sound { IsSound journal.new }
    ensures newest { journal.new.format ≡ newest }
    ensures whole { OnOk result (is_broken journal.new ≡ false) }
    ensures len { OnOk result (length_of journal.new ≡ length_with journal.old body.now) }
    ensures same_len { OnErr result (length_of journal.new ≡ length_of journal.old) }
    ensures ok { IsTrue D.tells →
        OnOk result (HasAppended D.view journal.old body.now journal.new) }
    ensures any_moment { IsTrue D.tells →
        AddsThroughout D.view journal.old body.now journal.new }
    ensures bytes { AreBytes body.now }
    ensures count { IfErr result (λ count. count ≡ (view_of D.view journal.new).faults) }
    ensures cause { OnErr result
        (Rose (view_of D.view journal.old).faults (view_of D.view journal.new).faults) }
    ensures later { (view_of D.view journal.old).faults ≤ (view_of D.view journal.new).faults }
{
    match journal.append(body) {
        Ok(()) => Ok(()),
        Err(AppendFault::DiskFault) => Err(journal.faults()),
        Err(AppendFault::Full { .. }) => unreachable!(),
    }
}
