ghost use Rattle.std.specs.Prelude.{◌≡◌, IsTrue, OnOk};
ghost use Rattle.shelf.specs.WebOutside.Pieces.{HandsOn};
ghost use Rattle.shelf.specs.PageJournal.Scanned.{IsQuiet};
ghost use Rattle.shelf.specs.PageJournal.Settled.{view_of};
ghost use Rattle.shelf.specs.Following.{IsReadable};
ghost use Rattle.shelf.specs.Views.{IsInOrder};
ghost use Rattle.page_follower.specs.Calls.{ExportsRecords, FailsExporting, SendsRecords};
ghost use Rattle.page_follower.specs.declared.exporting.ExportFault.TheVariants as fault;

use crate::sender::Sender;
use crate::writing::write_head;
use shelf::{Disk, Failed, Shelf, Sink};
use thiserror::Error;

/// Why a feed was not written.
#[derive(Clone, Copy, Debug, PartialEq, Eq, Error)]
pub enum ExportFault {
    /// A call of the disk failed.
    #[error("a call of the disk failed")]
    DiskFault,
    /// A write failed.
    #[error("a write failed")]
    Unwritten,
}

impl From<Failed> for ExportFault {
    ghost from_gives = { λ _ given. given ≡ fault.Unwritten };

    fn from(_: Failed) -> Self {
        ExportFault::Unwritten
    }
}

// Writes the records of a journal as those of a feed, as far as writes go.
fn send_all<D: Disk, N, O: Sink>(shelf: &mut Shelf<D, N>, sink: &mut O) -> Result<(), ExportFault>
    requires { IsReadable D.view D.tells shelf.old }
    ensures sends { IsTrue D.tells →
        SendsRecords D.view O.view shelf.old sink.old sink.new result }
    // So it is on any disk, also on one that does not tell its bytes.
    ensures causes { FailsExporting D.view O.view
        shelf.old sink.old shelf.new sink.new result }
    ensures quiet { IsQuiet (view_of D.view shelf.old.journal) (view_of D.view shelf.new.journal) }
    ensures readable { IsReadable D.view D.tells shelf.new }
    ensures in_order { IsInOrder D.view D.tells shelf.old → IsInOrder D.view D.tells shelf.new }
    ensures same { shelf.new ≡ record shelf.old { journal = shelf.new.journal } }
{
    let mut sender = Sender::new(sink);
    let read = shelf.for_each(&mut sender);
    if sender.failed() {
        return Err(ExportFault::Unwritten);
    }
    match read {
        Ok(()) => Ok(()),
        Err(_) => Err(ExportFault::DiskFault),
    }
}

/// Writes the feed of a shelf's records, and hands it on. Nothing is written on its disk.
pub fn export<D: Disk, N, O: Sink>(shelf: &mut Shelf<D, N>, sink: &mut O) -> Result<(), ExportFault>
    requires { IsReadable D.view D.tells shelf.old }
    ensures exports { IsTrue D.tells →
        ExportsRecords D.view O.view shelf.old sink.old sink.new result }
    // So it is on any disk, also on one that does not tell its bytes.
    ensures causes { FailsExporting D.view O.view
        shelf.old sink.old shelf.new sink.new result }
    ensures handed { OnOk result (HandsOn (O.view sink.new).written (O.view sink.new).handed) }
    ensures quiet { IsQuiet (view_of D.view shelf.old.journal) (view_of D.view shelf.new.journal) }
    ensures readable { IsReadable D.view D.tells shelf.new }
    ensures in_order { IsInOrder D.view D.tells shelf.old → IsInOrder D.view D.tells shelf.new }
    ensures same { shelf.new ≡ record shelf.old { journal = shelf.new.journal } }
{
    write_head(sink)?;
    send_all(shelf, sink)?;
    sink.flush()?;
    Ok(())
}
