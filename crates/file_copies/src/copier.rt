ghost use Rattle.std.specs.Prelude.{◌≡◌, ◌<◌, ◌^◌, ◌&&◌, false, [], ◌∷◌, if◌then◌else◌, length, IfOk, IfSome};
ghost use Rattle.file_notes.specs.JournalRecords.Roles.{is_role};
ghost use Rattle.file_copies.specs.Copies.{behind_first, IsBegun, IsComing, IsCopied, IsFinished, IsPut, IsReady};
ghost use Rattle.file_copies.specs.declared.copier.Stage.TheVariants as stage;

use crate::frame::put_record;
use file_notes::{FileNotes, Note, is_role};
use page_journal::{NEWEST_FORMAT, Take};
use std::alloc::{AllocError, Global};

/// Which record of the file comes next.
#[derive(Clone, Copy, Debug, PartialEq, Eq)]
pub enum Stage {
    /// The first record, or one in front of it that tells whether the shelf follows another one's journal.
    First,
    /// The number that an earlier compaction told.
    Number,
    Others,
}

// Which record comes after the first one.
fn behind_first(drawn: bool) -> Stage
    ensures { result ≡ behind_first drawn }
{
    if drawn { Stage::Number } else { Stage::Others }
}

/// Copies the records that stay into a new file, by what is known of them.
#[derive(Drop)]
pub struct Copier<'n> {
    pub notes: &'n [Note],
    /// How long the file is with its first record alone.
    pub head: u64,
    /// Which of those that have a note stay.
    pub plan: &'n [bool],
    /// Whether the file tells a number after its first record.
    pub drawn: bool,
    /// The body of the record of the number that the new file tells.
    pub number: &'n [u8],
    pub stage: Stage,
    /// The place of the next note.
    pub next: usize,
    pub file: Vec<u8>,
    /// The file is as its notes tell, and there was room for all.
    pub sound: bool,
}

impl<'n> Copier<'n> {
    /// A new file without records, with room for so many bytes.
    pub fn new(
        alloc: Global,
        notes: &'n FileNotes,
        plan: &'n [bool],
        number: &'n [u8],
        room: usize,
    ) -> Result<Copier<'n>, AllocError>
        ensures { IfOk result (IsBegun notes.now plan.now number.now) }
    {
        let mut file = Vec::with_capacity(alloc, room)?;
        file.extend_from_slice(&[75, 83, 87, 69, 66, 0, 0, NEWEST_FORMAT])?;
        Ok(Copier {
            notes: notes.notes(),
            head: notes.head(),
            plan,
            drawn: notes.is_compacted(),
            number,
            stage: Stage::First,
            next: 0,
            file,
            sound: true,
        })
    }

    /// The new file, with a closed gate after its records. Where the file is not as its notes tell, or the new one not so long, that is
    /// told as want of memory.
    pub fn finish(self, len: u64) -> Result<Vec<u8>, AllocError>
        ensures { IfOk result (IsFinished self.entry len) }
    {
        let Copier {
            notes,
            head: _,
            plan: _,
            drawn: _,
            number: _,
            stage,
            next,
            file,
            sound,
        } = self;
        let mut file = file;
        file.push(0)?;
        if !sound || stage != Stage::Others || next != notes.len() || file.len() as u64 != len {
            return Err(AllocError);
        }
        Ok(file)
    }

    // From now on the copier is not sound, unless this holds.
    fn check(&mut self, holds: bool)
        ensures { self.new ≡ record self.old { sound = self.old.sound && holds } }
    {
        self.sound = self.sound && holds;
    }

    // A record of the new file.
    fn put(&mut self, body: &[u8])
        requires { length body.now < 2 ^ 32 }
        ensures { IsPut self.old (body.now ∷ []) self.new }
    {
        if put_record(&mut self.file, body).is_err() {
            self.sound = false;
        }
    }

    // A record of the new file, if it stays.
    fn put_if(&mut self, stays: bool, body: &[u8])
        requires { length body.now < 2 ^ 32 }
        ensures { IsPut self.old (if stays then body.now ∷ [] else []) self.new }
    {
        if stays {
            self.put(body);
        }
    }

    // How long the next record is, as its note tells, and whether it stays.
    fn coming(&self) -> Option<(u32, bool)>
        ensures { IfSome result (IsComing self.now) }
    {
        let note = self.notes.get(self.next)?;
        let stays = self.plan.get(self.next)?;
        Some((note.length(), *stays))
    }

    // The first record, after which the new file tells its number.
    fn first(&mut self, body: &[u8])
        requires short { length body.now < 2 ^ 30 }
        requires ready { IsReady self.old }
        requires first { self.old.stage ≡ stage.First }
        requires other { is_role body.now ≡ false }
        ensures { IsCopied self.old body.now self.new }
    {
        self.check(body.len() as u64 + 14 == self.head);
        self.put(body);
        let number = self.number;
        self.put(number);
        self.stage = behind_first(self.drawn);
    }

    // The first record, or one in front of it, which goes.
    fn front(&mut self, body: &[u8])
        requires short { length body.now < 2 ^ 30 }
        requires ready { IsReady self.old }
        requires first { self.old.stage ≡ stage.First }
        ensures { IsCopied self.old body.now self.new }
    {
        if !is_role(body) {
            self.first(body);
        }
    }

    // The record that has the next note: it stays, or not, and is as long as the note tells.
    fn other(&mut self, body: &[u8])
        requires short { length body.now < 2 ^ 30 }
        requires others { self.old.stage ≡ stage.Others }
        ensures { IsCopied self.old body.now self.new }
    {
        let Some((length, stays)) = self.coming() else {
            self.sound = false;
            return;
        };
        self.check(length as usize == body.len());
        self.put_if(stays, body);
        self.next += 1;
    }
}

impl Take for Copier<'_> {
    ghost use Rattle.file_copies.specs.Copies.{IsCopied, IsReady};

    ghost takes = { λ old place body new. IsCopied old body new };

    ghost ready = { λ c place. IsReady c };

    fn body(&mut self, place: u64, body: &[u8]) {
        let _ = place;
        match self.stage {
            Stage::First => self.front(body),
            Stage::Number => self.stage = Stage::Others,
            Stage::Others => self.other(body),
        }
    }
}
