ghost use Rattle.std.specs.Prelude.{◌≡◌, ◌<◌, IfOk, IsErrOf};
ghost use Rattle.journal_records.specs.Old.{read_record_in};
ghost use Rattle.book_recovery.specs.Found.{HasStates};
ghost use Rattle.page_audit.specs.Auditing.{shelf_named, IsReady, IsStarted, Begins, Looks, IsWordFor, IsOwnUnless, Concludes};
ghost use Rattle.page_audit.specs.declared.auditor.Finding.TheVariants as finding;

use crate::answer::{AuditFault, Audited};
use book_recovery::{Found, SoundReader};
use journal_records::{Logged, decode};
use page_journal::Take;
use record_audit::{Word, fault_in};
use std::alloc::{AllocError, Global};

/// What an audit has found so far.
#[derive(Clone, Copy, Debug, PartialEq, Eq)]
pub enum Finding {
    /// Each record is one that a shelf writes there.
    Nothing,
    /// The first record that is not: the place of its gate, and why.
    First { place: u64, word: Word },
    /// There was no memory to look at each record.
    Memory,
}

/// Audits the records of a journal, one by one.
#[derive(Drop)]
pub struct Auditor {
    pub alloc: Global,
    /// The format of the journal.
    pub format: u8,
    /// Makes the book of the records, for the shelf that the first one of a setup names.
    pub reader: SoundReader,
    /// How many records there were.
    pub records: u64,
    pub finding: Finding,
}

// The number of the shelf that a record names, if it names one.
fn named_shelf(alloc: Global, format: u8, body: &[u8]) -> Result<Option<u32>, AllocError>
    ensures { IfOk result (λ shelf. shelf ≡ shelf_named (read_record_in format body.now)) }
{
    match decode(alloc, format, body)? {
        Some(Logged::Begin { shelf, .. }) => Ok(Some(shelf)),
        _ => Ok(None),
    }
}

impl Auditor {
    /// No record was audited.
    pub fn new(alloc: Global, format: u8) -> Auditor
        requires known { 0 < format }
        ensures started { IsStarted format result }
        ensures ready { IsReady result 8 }
    {
        Auditor {
            alloc,
            format,
            reader: SoundReader::new(alloc, 0, format),
            records: 0,
            finding: Finding::Nothing,
        }
    }

    // A record that names a shelf, where nothing was made yet, names that whose book is made.
    fn begin(&mut self, body: &[u8])
        ensures { Begins self.old body.now self.new }
    {
        let Found::Nothing = self.reader.found() else {
            return;
        };
        match named_shelf(self.alloc, self.format, body) {
            Ok(Some(shelf)) => self.reader.name(shelf),
            Ok(None) => (),
            Err(_) => self.finding = Finding::Memory,
        }
    }

    // Why the next record is not one that a shelf writes there, if it is not. Where no book was made there is no word.
    fn word(&self, body: &[u8]) -> Result<Option<Word>, AllocError>
        requires known { 0 < self.now.format }
        requires states { HasStates self.now.reader.found }
        ensures word { IfOk result
            (IsWordFor self.now.format self.now.reader.seen self.now.reader.found body.now) }
        ensures owns { IfOk result
            (IsOwnUnless self.now.format self.now.reader.seen self.now.reader.found body.now) }
    {
        let Found::Made { book, library } = self.reader.found() else {
            return Ok(None);
        };
        match decode(self.alloc, self.format, body)? {
            Some(logged) => {
                fault_in(
                    self.alloc,
                    self.format,
                    book,
                    library,
                    self.reader.seen(),
                    &logged,
                )
            }
            None => Ok(None),
        }
    }

    // Looks at the next record, whose gate is at this place, where nothing was found before.
    fn look(&mut self, place: u64, body: &[u8])
        requires known { 0 < self.old.format }
        requires states { self.old.finding ≡ finding.Nothing → HasStates self.old.reader.found }
        ensures { Looks self.old place body.now self.new }
    {
        let Finding::Nothing = self.finding else {
            return;
        };
        match self.word(body) {
            Ok(None) => (),
            Ok(Some(word)) => self.finding = Finding::First { place, word },
            Err(_) => self.finding = Finding::Memory,
        }
    }

    /// What the audit answers to the records that there were. Damage comes before a finding.
    pub fn answer(&self) -> Result<Audited, AuditFault>
        ensures concludes { Concludes self.now result }
        ensures calls_none { IsErrOf result AuditFault.DiskFault → ⊥ }
    {
        let answer = match self.finding {
            Finding::Nothing => Audited::Yes {
                records: self.records,
            },
            Finding::First { place, word } => Audited::No { place, word },
            Finding::Memory => return Err(AuditFault::Memory),
        };
        match self.reader.found() {
            Found::Nothing => Ok(answer),
            Found::Made { .. } => Ok(answer),
            Found::Damaged { place } => Err(AuditFault::Damaged { place: *place }),
            Found::Other { place } => Err(AuditFault::Damaged { place: *place }),
            Found::Memory => Err(AuditFault::Memory),
        }
    }
}

impl Take for Auditor {
    ghost use Rattle.page_audit.specs.Auditing.{IsReady, IsAudited};

    ghost takes = { IsAudited };

    ghost ready = { IsReady };

    fn body(&mut self, place: u64, body: &[u8]) {
        self.begin(body);
        self.look(place, body);
        self.reader.body(place, body);
        self.records += 1;
    }
}
