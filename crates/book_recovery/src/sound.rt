use crate::found::{Found, ReadBook};
use crate::reader::Reader;
use book_redo::InOrder;
use file_notes::FileNotes;
use page_journal::Take;
use std::alloc::Global;
use std::marker::Model;

/// Makes the book of a shelf from the records of its journal, as they are handed to it one by one. Its book, if it has made one, can go on.
#[derive(Drop)]
pub struct SoundReader {
    reader: Reader,
}

impl Model for SoundReader {
    ghost use Rattle.std.specs.Coded.{codes};
    ghost use Rattle.file_notes.specs.contracts.past.FilePast as past_type;
    ghost use Rattle.book_recovery.specs.contracts.found.Found as found_type;
    ghost use Rattle.book_recovery.specs.declared.reader.Reader.{Reader};

    ghost Value = { Reader };

    ghost coded = { Prim.hlevel (codes, past_type.the_row.coded, found_type.the_row.coded) };

    ghost use Rattle.book_recovery.specs.Reading.{IsSoundReader};

    ghost view = { λ s. s.reader };

    ghost invariant = { λ s. IsSoundReader s.reader };
}

impl SoundReader {
    ghost use Rattle.std.specs.Prelude.{◌≡◌, ◌<◌, false, []};
    ghost use Rattle.file_notes.specs.Files.{marks_in};
    ghost use Rattle.book_recovery.specs.Reading.{seen_by, with_shelf, IsSoundReader};
    ghost use Rattle.book_recovery.specs.declared.found.Found.TheVariants as found;

    /// No record was read.
    pub fn new(alloc: Global, shelf: u32, format: u8) -> SoundReader
        requires known { 0 < format }
        ensures shelf { result.shelf ≡ shelf }
        ensures format { result.format ≡ format }
        ensures found { result.found ≡ found.Nothing }
        ensures follows { result.follows ≡ false }
        ensures seen { seen_by result.seen ≡ [] }
        ensures marks { marks_in result.notes ≡ [] }
        ensures anew { result.anew.items ≡ [] }
    {
        SoundReader {
            reader: Reader {
                alloc,
                shelf,
                format,
                seen: InOrder::new(alloc),
                follows: false,
                alone: true,
                found: Found::Nothing,
                notes: FileNotes::none(alloc),
                anew: Vec::new(alloc),
            },
        }
    }

    /// From here on the reader is for the shelf of this number. No record of a setup was read.
    pub fn name(&mut self, shelf: u32)
        requires nothing { self.old.found ≡ found.Nothing }
        ensures named { self.new ≡ with_shelf shelf self.old }
    {
        self.reader.shelf = shelf;
    }

    /// What was made of the records so far.
    pub fn found(&self) -> &Found
        ensures found { result.now ≡ self.now.found }
        ensures sound { IsSoundReader self.now }
    {
        &self.reader.found
    }

    /// The numbers that the records told of so far.
    pub fn seen(&self) -> &InOrder<()>
        ensures seen { result.now ≡ self.now.seen }
    {
        &self.reader.seen
    }

    /// What was made of the records, and what is known of their file.
    pub fn finish(self) -> ReadBook
        ensures found { result.found ≡ self.found }
        ensures notes { result.notes ≡ self.notes }
        ensures anew { result.anew ≡ self.anew }
        ensures follows { result.follows ≡ self.follows }
        ensures seen { result.seen ≡ self.seen }
        ensures alone { result.alone ≡ self.alone }
        ensures sound { IsSoundReader self }
    {
        let SoundReader { reader } = self;
        let Reader {
            alloc: _,
            shelf: _,
            format: _,
            seen,
            follows,
            alone,
            found,
            notes,
            anew,
        } = reader;
        ReadBook {
            found,
            notes,
            anew,
            follows,
            seen,
            alone,
        }
    }
}

impl Take for SoundReader {
    ghost use Rattle.book_recovery.specs.Reading.{HasFew, IsTaken};

    ghost takes = { IsTaken };

    ghost ready = { λ r place. HasFew place r.found };

    fn body(&mut self, place: u64, body: &[u8]) {
        self.reader.take(place, body);
    }
}
