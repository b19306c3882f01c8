ghost use Rattle.std.specs.Prelude.{◌≡◌, true, IsTrue, OnOk, IsErrOf};
ghost use Rattle.web_disk.specs.View.{Only};
ghost use Rattle.page_journal.specs.Records.{is_format};
ghost use Rattle.page_journal.specs.Scanned.{IsQuiet};
ghost use Rattle.page_journal.specs.Settled.{HasFailed};
ghost use Rattle.page_journal.specs.Stored.{AreStored, IsUnwritten};
ghost use Rattle.page_audit.specs.Audits.{audit_in, audit_of, IsAnswer};

use crate::answer::{AuditFault, Audited};
use crate::auditor::Auditor;
use page_journal::{StoredRecords, find_records};
use std::alloc::Global;
use web_disk::Disk;

// Audits the records that were found on a disk.
fn audit_records<D: Disk>(
    alloc: Global,
    disk: &mut D,
    found: StoredRecords,
) -> Result<Audited, AuditFault>
    requires known { is_format found.format ≡ true }
    requires found { IsTrue D.tells → AreStored (D.view disk.old).seen found }
    ensures answer { IsTrue D.tells → IsAnswer (audit_in (D.view disk.old).seen) result }
    ensures quiet { IsQuiet (D.view disk.old) (D.view disk.new) }
    ensures cause { IsErrOf result AuditFault.DiskFault →
        HasFailed (D.view disk.old) (D.view disk.new) }
{
    let mut found = found;
    let mut auditor = Auditor::new(alloc, found.format());
    found.for_each(disk, &mut auditor)?;
    auditor.answer()
}

/// Audits the journal of a disk. Nothing is written.
pub fn audit_file<D: Disk>(alloc: Global, disk: &mut D) -> Result<Audited, AuditFault>
    ensures answer { IsTrue D.tells → IsAnswer (audit_of (D.view disk.old).seen) result }
    ensures durable { OnOk result (Only (D.view disk.old).seen (D.view disk.new)) }
    ensures seen { (D.view disk.new).seen ≡ (D.view disk.old).seen }
    ensures unwritten { IsUnwritten (D.view disk.old) (D.view disk.new) }
    ensures cause { IsErrOf result AuditFault.DiskFault →
        HasFailed (D.view disk.old) (D.view disk.new) }
{
    match find_records(alloc, disk)? {
        Some(found) => audit_records(alloc, disk, found),
        None => Ok(Audited::Yes { records: 0 }),
    }
}
