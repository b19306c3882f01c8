ghost use Rattle.std.specs.Prelude.{◌≡◌};
ghost use Rattle.page_audit.specs.declared.answer.AuditFault.TheVariants.{DiskFault as AuditDiskFault, Memory as AuditMemory};

use page_journal::{DiskFault, JournalFault};
use record_audit::Word;
use std::alloc::AllocError;
use thiserror::Error;
use web_outside::Failed;

/// What an audit answers.
#[derive(Clone, Copy, Debug, PartialEq, Eq)]
pub enum Audited {
    /// Each of so many records is one that a shelf writes there.
    Yes { records: u64 },
    /// The record whose gate is at this place is not, for this reason. No record before it is such a one.
    No { place: u64, word: Word },
}

/// Why there is no answer.
#[derive(Clone, Copy, Debug, PartialEq, Eq, Error)]
pub enum AuditFault {
    /// At this place the bytes are no journal's, or no record that can stand there.
    #[error("the journal is damaged at {place}")]
    Damaged { place: u64 },
    /// A call of a disk failed.
    #[error("a call of a disk failed")]
    DiskFault,
    /// There was no memory.
    #[error("memory ran out")]
    Memory,
}

impl From<AllocError> for AuditFault {
    ghost from_gives = { λ _ fault. fault ≡ AuditMemory };

    fn from(_: AllocError) -> Self {
        AuditFault::Memory
    }
}

impl From<Failed> for AuditFault {
    ghost from_gives = { λ _ fault. fault ≡ AuditDiskFault };

    fn from(_: Failed) -> Self {
        AuditFault::DiskFault
    }
}

impl From<DiskFault> for AuditFault {
    ghost from_gives = { λ _ fault. fault ≡ AuditDiskFault };

    fn from(_: DiskFault) -> Self {
        AuditFault::DiskFault
    }
}

impl From<JournalFault> for AuditFault {
    ghost use Rattle.page_audit.specs.Audits.{fault_by};

    ghost from_gives = { λ fault given. given ≡ fault_by fault };

    fn from(fault: JournalFault) -> Self {
        match fault {
            JournalFault::Damaged { place } => AuditFault::Damaged { place },
            JournalFault::DiskFault => AuditFault::DiskFault,
            JournalFault::Memory => AuditFault::Memory,
        }
    }
}
