use crate::words::bytes_of;
use book_recovery::{Found, ReadBook, read_book};
use instance_book::Book;
use journal_records::{Recorded, can_begin, encode};
use page_journal::Journal;
use script_nodes::Setup;
use script_value::Value;
use std::alloc::{AllocError, Global};
use web_disk::MemoryDisk;

const HEADER: &[u8] = &[75, 83, 87, 69, 66, 0, 0, 6];

/// The file of a journal, up to its last gate.
#[derive(Drop)]
pub struct File {
    bytes: Vec<u8>,
}

impl File {
    /// A file without records.
    pub fn new(alloc: Global) -> Result<File, AllocError> {
        let bytes = HEADER.to_vec(alloc)?;
        Ok(File { bytes })
    }

    // One more record, of fewer than 65,536 bytes.
    fn add(&mut self, body: &[u8]) -> Result<(), AllocError> {
        let size = (body.len() % 65_536) as u32;
        self.bytes.push(1)?;
        self.bytes.extend_from_slice(&size.to_le_bytes())?;
        self.bytes.extend_from_slice(body)?;
        Ok(())
    }

    /// The record that a journal of this shelf begins with.
    pub fn add_begin(
        &mut self,
        alloc: Global,
        shelf: u32,
        setup: &Setup,
    ) -> Result<(), AllocError> {
        if can_begin(shelf, setup) {
            let body = encode(alloc, &Recorded::Begin { shelf, setup })?;
            self.add(body.as_slice())?;
        }
        Ok(())
    }

    /// A record whose body these words are.
    pub fn add_words(&mut self, alloc: Global, words: &str) -> Result<(), AllocError> {
        let body = bytes_of(alloc, words)?;
        self.add(&body)
    }

    // Its bytes, with a closed gate after the last record.
    fn closed(self) -> Result<Vec<u8>, AllocError> {
        let mut bytes = self.bytes;
        bytes.push(0)?;
        Ok(bytes)
    }
}

// What stands in the first cell of instance 1.
fn cell(book: &Book) -> Option<i64> {
    match book.cells(1)?.find(0)? {
        Value::Int(number) => Some(*number),
        _ => None,
    }
}

// How many instances a book has, the next number, the clock, and the cell of instance 1.
fn told_of_book(alloc: Global, book: &Book) -> Result<String, AllocError> {
    let live = book.live();
    let next = book.drawn();
    let clock = book.clock();
    match cell(book) {
        Some(number) => {
            format!(in alloc; "live {live} next {next} clock {clock} cell {number}\n")
        }
        None => format!(in alloc; "live {live} next {next} clock {clock}\n"),
    }
}

fn told_of(alloc: Global, found: &Found) -> Result<String, AllocError> {
    match found {
        Found::Nothing => String::from_str(alloc, "nothing\n"),
        Found::Made { book, .. } => told_of_book(alloc, book),
        Found::Damaged { place } => format!(in alloc; "damaged at {place}\n"),
        Found::Other { place } => format!(in alloc; "another journal at {place}\n"),
        Found::Memory => Err(AllocError),
    }
}

// What a disk of these bytes makes of shelf 7; none where it holds no journal.
fn found(alloc: Global, bytes: Vec<u8>) -> Result<Option<Found>, AllocError> {
    let disk = MemoryDisk::new(alloc, bytes, Vec::new(alloc))?;
    let Ok(mut journal) = Journal::begin(alloc, disk) else {
        return Ok(None);
    };
    match read_book(alloc, &mut journal, 7) {
        Ok(ReadBook { found, .. }) => Ok(Some(found)),
        Err(_) => Ok(None),
    }
}

/// What a file makes of shelf 7, in words.
pub fn told_of_file(alloc: Global, file: File) -> Result<String, AllocError> {
    let bytes = file.closed()?;
    match found(alloc, bytes)? {
        Some(found) => told_of(alloc, &found),
        None => String::from_str(alloc, "no journal\n"),
    }
}
