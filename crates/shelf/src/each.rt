ghost use Rattle.std.specs.Prelude.{◌≡◌, IsTrue, OnOk, OnErr};
ghost use Rattle.page_journal.specs.Calls.{TakesSome};
ghost use Rattle.page_journal.specs.Scanned.{IsQuiet};
ghost use Rattle.page_journal.specs.Settled.{HasFailed, view_of, bodies_in};
ghost use Rattle.page_journal.specs.Taken.{TakesFront};

use crate::shelf::Shelf;
use page_journal::{DiskFault, Take};
use web_disk::Disk;

impl<D: Disk, N> Shelf<D, N> {
    ghost use Rattle.shelf.specs.Calls.{TakesEach};
    ghost use Rattle.shelf.specs.Views.{IsInOrder};
    ghost use Rattle.shelf.specs.Following.{IsReadable};

    /// Hands on the body of each record of the journal, in order, to a taker that is ready for the first gate. It takes no memory, and nothing
    /// is written.
    pub fn for_each<T: Take>(&mut self, taker: &mut T) -> Result<(), DiskFault>
        requires readable { IsReadable D.view D.tells self.old }
        requires ready { T.ready taker.old 8 }
        ensures taken { IsTrue D.tells →
            OnOk result (TakesEach T.takes D.view self.old taker.old taker.new) }
        ensures front { IsTrue D.tells →
            TakesFront T.takes taker.old (bodies_in D.view self.old.journal) taker.new }
        // What follows holds of a disk that does not tell its bytes too, and where a call of it failed.
        ensures handed { TakesSome T.takes taker.old taker.new }
        ensures quiet { IsQuiet (view_of D.view self.old.journal) (view_of D.view self.new.journal) }
        ensures readable { IsReadable D.view D.tells self.new }
        ensures in_order { IsInOrder D.view D.tells self.old → IsInOrder D.view D.tells self.new }
        ensures same { self.new ≡ record self.old { journal = self.new.journal } }
        ensures cause { OnErr result
            (HasFailed (view_of D.view self.old.journal) (view_of D.view self.new.journal)) }
    {
        self.journal.for_each(taker)
    }
}
