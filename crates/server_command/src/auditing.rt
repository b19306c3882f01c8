ghost use Rattle.std.specs.Prelude.{◌≡◌, ◌<◌, ◌≤◌, false, Ok};
ghost use Rattle.server_limits.specs.Limits.{most_shelves};
ghost use Rattle.command_words.specs.Plain.{HasShelves, CanServe};
ghost use Rattle.play_desk.specs.Opening.{AreHome};
ghost use Rattle.server_command.specs.Auditing.{ComesOne, ComesThrough, LeavesShelves, counted_of, untaken_for};
ghost use Rattle.server_command.specs.Calls.{AuditsAll, AuditsFirst, rack_over};
ghost use Rattle.server_command.specs.Output.{Hands};
ghost use Rattle.server_command.specs.Racks.{AreBack};

use crate::program::Status;
use crate::telling::{hand_on, tell_audited, tell_end};
use command_words::{Service, ShelvesOptions};
use page_audit::{AuditFault, Audited, Word, audit};
use std::alloc::Global;
use trio_rack::{give_trio, take_trio};
use web_disk::{Disk, Rack, RackFault};
use web_outside::Sink;

/// Why a shelf's journal was not answered yes.
#[derive(Clone, Copy, Debug, PartialEq, Eq)]
pub enum AuditCause {
    /// A take of its disks failed, or a call of one of them.
    Disk,
    /// At this place is no record that a shelf writes there.
    Damaged { place: u64 },
    /// To the record whose gate is at this place the audit says no, for this reason.
    Found { place: u64, word: Word },
    /// Memory ran out.
    Memory,
}

/// The shelf at which audits ended, and why.
#[derive(Clone, Copy, Debug, PartialEq, Eq)]
pub struct AuditEnd {
    pub shelf: u32,
    pub why: AuditCause,
}

// Why a shelf's disks were not taken.
fn untaken(fault: RackFault) -> AuditCause
    ensures { result ≡ untaken_for fault }
{
    match fault {
        RackFault::Failed => AuditCause::Disk,
        RackFault::Memory => AuditCause::Memory,
    }
}

// How many records were answered yes, or why a journal was not.
fn counted(answer: Result<Audited, AuditFault>) -> Result<u64, AuditCause>
    ensures { result ≡ counted_of answer }
{
    match answer {
        Ok(Audited::Yes { records }) => Ok(records),
        Ok(Audited::No { place, word }) => Err(AuditCause::Found { place, word }),
        Err(AuditFault::Damaged { place }) => Err(AuditCause::Damaged { place }),
        Err(AuditFault::DiskFault) => Err(AuditCause::Disk),
        Err(AuditFault::Memory) => Err(AuditCause::Memory),
    }
}

// Takes the disks of a shelf, audits its journal and gives them back.
fn audit_shelf<D: Disk, R: Rack<D>>(
    alloc: Global,
    rack: &mut R,
    directory: &str,
    shelf: u32,
) -> Result<u64, AuditCause>
    requires shelf { shelf < most_shelves }
    ensures comes { ComesOne (rack_over R.view R.tells D.tells rack.old rack.new) shelf result }
    ensures leaves { LeavesShelves (rack_over R.view R.tells D.tells rack.old rack.new) }
{
    let mut disks = match take_trio(rack, alloc, directory, shelf) {
        Ok(disks) => disks,
        Err(fault) => return Err(untaken(fault)),
    };
    let answer = audit(alloc, &mut disks);
    // A count is below 2^64, so it does not fall where that of a disk is added.
    let _count = rack.faults();
    give_trio(rack, shelf, disks);
    counted(answer)
}

// Audits the journals of so many shelves, in order, up to the first that is not answered yes.
fn audit_shelves<D: Disk, R: Rack<D>>(
    alloc: Global,
    rack: &mut R,
    directory: &str,
    count: u32,
) -> Result<(), AuditEnd>
    requires { count ≤ most_shelves }
    ensures comes { ComesThrough
        (rack_over R.view R.tells D.tells rack.old rack.new) count result }
    ensures leaves { LeavesShelves (rack_over R.view R.tells D.tells rack.old rack.new) }
{
    'auditing: for shelf in 0..count {
        match audit_shelf(alloc, rack, directory, shelf) {
            Ok(_records) => {}
            Err(why) => return Err(AuditEnd { shelf, why }),
        }
    }
    Ok(())
}

/// Audits the journals that are to be served, where the service asks for that.
pub(crate) fn audit_first<D: Disk, R: Rack<D>>(
    alloc: Global,
    rack: &mut R,
    service: &Service,
) -> Result<(), AuditEnd>
    requires can { CanServe service.now }
    ensures rests { service.now.audit ≡ false → (result ≡ Ok tt) × (rack.new ≡ rack.old) }
    ensures comes { AuditsFirst service.now
        (rack_over R.view R.tells D.tells rack.old rack.new) result }
    ensures leaves { LeavesShelves (rack_over R.view R.tells D.tells rack.old rack.new) }
{
    if !service.audit {
        return Ok(());
    }
    let options = &service.options;
    audit_shelves(alloc, rack, options.journal.as_str(), options.shelves)
}

/// Audits the journals of shelves, in order, and tells of each how many records it has, up to the first that is not answered yes.
pub(crate) fn audit_all<O: Sink, D: Disk, R: Rack<D>>(
    alloc: Global,
    options: &ShelvesOptions,
    output: &mut O,
    rack: &mut R,
) -> Status
    requires range { HasShelves options.now }
    requires home { AreHome (R.view rack.old).out }
    ensures leaves { AuditsAll R.view R.tells D.tells O.view options.now result
        rack.old rack.new output.old output.new }
    ensures hands { Hands result (O.view output.old) (O.view output.new) }
    ensures back { AreBack (R.view rack.old) (R.view rack.new) }
{
    'auditing: for shelf in 0..options.shelves {
        match audit_shelf(alloc, rack, options.journal.as_str(), shelf) {
            Ok(records) => match tell_audited(alloc, shelf, records, output) {
                Ok(()) => {}
                Err(status) => return status,
            },
            Err(why) => return tell_end(alloc, AuditEnd { shelf, why }, output),
        }
    }
    hand_on(output)
}
