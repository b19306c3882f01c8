ghost use Rattle.std.specs.Prelude.{◌≡◌, ◌≤◌, ◌+◌, ◌++◌, ◌∷◌, [], true, false, IfOk, IfSome, OnOk};
ghost use Rattle.script_nodes.specs.Views.{scripts_of, library_of};
ghost use Rattle.replay_spec.specs.Book.{changed, renewed, sweeps};
ghost use Rattle.replay_spec.specs.Rules.{first_file};
ghost use Rattle.replay_spec.specs.Change.{with_line};
ghost use Rattle.journal_records.specs.Views.{logged_of};
ghost use Rattle.instance_book.specs.Changes.{change_of};
ghost use Rattle.file_notes.specs.Notes.{note_read};
ghost use Rattle.file_notes.specs.Files.{file_in, with_drawn, with_read, with_mark, marks_in, total_in, IsNoted, HasRoom, IsCompactedFrom, IsPlan, IsPlanned, IsLonger, StaysAsTold, IsPicked};

use crate::note::Note;
use crate::past::FilePast;
use crate::plan::{lengths_of, longest_of, picked, plan_of};
use instance_book::{Book, Change};
use journal_records::Logged;
use script_nodes::{Library, Setup};
use std::alloc::{AllocError, Global};
use std::snapshot::Snapshot;

// How long the record of a number is in a file, with its gate.
const DRAWN: u128 = 14;

/// What is known of the records of a file. A record in front of the first one, which tells whether the shelf follows another one's
/// journal, has no note and is not counted.
#[derive(Drop)]
pub struct FileNotes {
    // How long the file is with its first record alone.
    pub(crate) head: u64,
    // Whether the number of a compaction stands after that.
    pub(crate) drawn: bool,
    // The other records, in their order.
    pub(crate) notes: Vec<Note>,
    pub(crate) past: FilePast,
}

// A note of a record after the others, for which there is room.
fn put(notes: &mut Vec<Note>, note: Note)
    requires { HasRoom notes.old }
    ensures { notes.new.items ≡ notes.old.items ++ note ∷ [] }
{
    let Ok(()) = notes.push(note) else {
        unreachable!()
    };
}

impl FileNotes {
    /// A file of which nothing is known yet.
    pub fn none(alloc: Global) -> FileNotes
        ensures file { file_in result ≡ first_file 0 [] }
        ensures marks { marks_in result ≡ [] }
        ensures drawn { result.drawn ≡ false }
        ensures noted { IsNoted result }
    {
        FileNotes {
            head: 0,
            drawn: false,
            notes: Vec::new(alloc),
            past: FilePast::Nothing,
        }
    }

    /// The first record, which tells this setup; the file is so long with it alone.
    pub fn begin(&mut self, setup: &Setup, head: u64)
        ensures file { file_in self.new ≡ first_file head (scripts_of setup.now) }
        ensures marks { marks_in self.new ≡ [] }
        ensures drawn { self.new.drawn ≡ false }
        ensures noted { IsNoted self.new }
    {
        self.head = head;
        self.drawn = false;
        self.notes.clear();
        self.past = FilePast::Begun {
            setup: Snapshot::of(setup),
            head,
        };
    }

    /// How long the file is; none where that is 2^64 or more.
    pub fn total(&self) -> Option<u64>
        ensures some { IfSome result (λ n. n ≡ total_in self.now) }
    {
        let total = self.head as u128 + lengths_of(self.notes.as_slice());
        let total = if self.drawn { total + DRAWN } else { total };
        if total <= u64::MAX as u128 {
            Some(total as u64)
        } else {
            None
        }
    }

    /// Whether the file tells the number of a compaction.
    pub fn is_compacted(&self) -> bool
        ensures { result ≡ self.now.drawn }
    {
        self.drawn
    }

    /// Which record after the first one, and the number, is of what.
    pub fn notes(&self) -> &[Note]
        ensures { result.now ≡ self.now.notes.items }
    {
        self.notes.as_slice()
    }

    /// How long the file is with its first record alone.
    pub fn head(&self) -> u64
        ensures { result ≡ self.now.head }
    {
        self.head
    }

    /// How long the longest body is, 9 bytes at least. Each stands after a gate and its length, and the first one after a header too.
    pub fn longest(&self) -> u64
        ensures longest { IsLonger self.now.notes.items result }
        ensures first { self.now.head ≤ result + 14 }
        ensures low { self.now.drawn ≡ true → result ≤ total_in self.now }
    {
        longest_of(self.notes.as_slice()).max(self.head.saturating_sub(14))
    }

    /// Makes room for a note.
    pub fn room(&mut self) -> Result<(), AllocError>
        requires noted { IsNoted self.old }
        ensures room { OnOk result (HasRoom self.new.notes) }
        ensures same { StaysAsTold self.old self.new }
        ensures noted { IsNoted self.new }
    {
        self.notes.reserve(1)
    }

    /// The record of a number.
    pub fn draw(&mut self, number: u64)
        requires noted { IsNoted self.old }
        ensures file { file_in self.new ≡ with_drawn number (file_in self.old) }
        ensures marks { marks_in self.new ≡ marks_in self.old }
        ensures drawn { self.new.drawn ≡ true }
        ensures noted { IsNoted self.new }
    {
        let before = Snapshot::of(&self.past);
        self.drawn = true;
        self.past = FilePast::Drawn { before, number };
    }

    /// A record after the others that was read and lands, whose note is this and whose body is so long. There is room for its note.
    pub fn read(&mut self, logged: Snapshot<Logged>, note: Note, length: u32)
        requires noted { IsNoted self.old }
        requires room { HasRoom self.old.notes }
        requires note { note ≡ note_read (logged_of logged.value) length }
        ensures file { file_in self.new
            ≡ with_read true (logged_of logged.value) length (file_in self.old) }
        ensures marks { marks_in self.new
            ≡ marks_in self.old ++ with_mark true (logged_of logged.value) ∷ [] }
        ensures drawn { self.new.drawn ≡ self.old.drawn }
        ensures noted { IsNoted self.new }
    {
        put(&mut self.notes, note);
        let before = Snapshot::of(&self.past);
        self.past = FilePast::Read {
            before,
            logged,
            length: length as u64,
        };
    }

    /// A record after the others that recovery passes over, whose body is so long. There is room for its note.
    pub fn pass(&mut self, length: u32)
        requires noted { IsNoted self.old }
        requires room { HasRoom self.old.notes }
        ensures file { file_in self.new ≡ file_in self.old }
        ensures marks { marks_in self.new ≡ marks_in self.old ++ false ∷ [] }
        ensures drawn { self.new.drawn ≡ self.old.drawn }
        ensures noted { IsNoted self.new }
    {
        put(&mut self.notes, Note::Passed { length });
    }

    /// The record of a visit's change after the others. There is room for its note.
    pub fn visit(&mut self, change: &Change, length: u32)
        requires noted { IsNoted self.old }
        requires room { HasRoom self.old.notes }
        ensures file { file_in self.new
            ≡ with_line (changed (change_of change.now) length) (file_in self.old) }
        ensures marks { marks_in self.new ≡ marks_in self.old ++ true ∷ [] }
        ensures drawn { self.new.drawn ≡ self.old.drawn }
        ensures noted { IsNoted self.new }
    {
        put(&mut self.notes, Note::of_change(change, length));
        let before = Snapshot::of(&self.past);
        self.past = FilePast::Visited {
            before,
            change: Snapshot::of(change),
            length: length as u64,
        };
    }

    /// The record of a tick after the others. There is room for its note.
    pub fn sweep(&mut self, tick: u64, length: u32)
        requires noted { IsNoted self.old }
        requires room { HasRoom self.old.notes }
        ensures file { file_in self.new ≡ with_line (changed (sweeps tick) length) (file_in self.old) }
        ensures marks { marks_in self.new ≡ marks_in self.old ++ true ∷ [] }
        ensures drawn { self.new.drawn ≡ self.old.drawn }
        ensures noted { IsNoted self.new }
    {
        put(&mut self.notes, Note::Time { length });
        let before = Snapshot::of(&self.past);
        self.past = FilePast::Swept {
            before,
            tick,
            length: length as u64,
        };
    }

    /// The record of another setup after the others. There is room for its note.
    pub fn renew(&mut self, setup: Snapshot<Setup>, length: u32)
        requires noted { IsNoted self.old }
        requires room { HasRoom self.old.notes }
        ensures file { file_in self.new
            ≡ with_line (renewed (scripts_of setup.value) length) (file_in self.old) }
        ensures marks { marks_in self.new ≡ marks_in self.old ++ true ∷ [] }
        ensures drawn { self.new.drawn ≡ self.old.drawn }
        ensures noted { IsNoted self.new }
    {
        put(&mut self.notes, Note::Setup { length });
        let before = Snapshot::of(&self.past);
        self.past = FilePast::Renewed {
            before,
            setup,
            length: length as u64,
        };
    }

    /// Which records stay when the file of this book is compacted, of those that have a note.
    pub fn plan(&self, alloc: Global, book: &Book) -> Result<Vec<bool>, AllocError>
        ensures { IfOk result (IsPlan book.now self.now.notes.items) }
    {
        plan_of(alloc, self.notes.as_slice(), book)
    }

    /// What is known of the compacted file, where these records stay.
    pub fn compacted(
        &self,
        alloc: Global,
        plan: &[bool],
        book: &Book,
        library: &Library,
    ) -> Result<FileNotes, AllocError>
        requires noted { IsNoted self.now }
        requires plan { IsPlanned book.now self.now.notes.items plan.now }
        ensures file { IfOk result (IsCompactedFrom (library_of library.now) book.now self.now) }
        ensures notes { IfOk result (IsPicked plan.now self.now) }
        ensures noted { IfOk result IsNoted }
    {
        let notes = picked(alloc, plan, self.notes.as_slice())?;
        Ok(FileNotes {
            head: self.head,
            drawn: true,
            notes,
            past: FilePast::Compacted {
                before: Snapshot::of(&self.past),
                book: Snapshot::of(book),
                library: Snapshot::of(library),
            },
        })
    }
}
