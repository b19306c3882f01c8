ghost use Rattle.std.specs.Prelude.{◌≡◌, false, IsTrue, OnOk, IsErrOf};
ghost use Rattle.web_disk.specs.View.{Only};
ghost use Rattle.disk_trio.specs.Trio.{trio_view, HasFailed};
ghost use Rattle.page_audit.specs.Audits.{audit_of, IsAnswer, IsOnlyRead};

use crate::answer::{AuditFault, Audited};
use crate::file::audit_file;
use disk_trio::Disks;
use std::alloc::Global;
use web_disk::Disk;

// Opens three disks and audits the journal of the file that their root names.
fn read_through<D: Disk>(alloc: Global, disks: &mut Disks<D>) -> Result<Audited, AuditFault>
    requires closed { disks.old.known ≡ false }
    ensures answer { IsTrue D.tells → IsAnswer (audit_of (trio_view disks.old).seen) result }
    ensures read { IsOnlyRead disks.old disks.new }
    // What was audited is on the disks.
    ensures durable { IsTrue D.tells →
        OnOk result (Only (trio_view disks.new).seen (trio_view disks.new)) }
    ensures cause { IsErrOf result AuditFault.DiskFault → HasFailed disks.old disks.new }
{
    disks.room_to_open()?;
    disks.open()?;
    audit_file(alloc, disks)
}

/// Audits the journal of three disks that are not opened, of any format. They are handed on as they came: nothing is written, and they can
/// be opened.
pub fn audit<D: Disk>(alloc: Global, disks: &mut Disks<D>) -> Result<Audited, AuditFault>
    requires closed { disks.old.known ≡ false }
    ensures closed { disks.new.known ≡ false }
    ensures answer { IsTrue D.tells → IsAnswer (audit_of (trio_view disks.old).seen) result }
    ensures read { IsOnlyRead disks.old disks.new }
    // What was audited is on the disks.
    ensures durable { IsTrue D.tells →
        OnOk result (Only (trio_view disks.new).seen (trio_view disks.new)) }
    ensures cause { IsErrOf result AuditFault.DiskFault → HasFailed disks.old disks.new }
{
    let answer = read_through(alloc, disks);
    disks.forget();
    answer
}
