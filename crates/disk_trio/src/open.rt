ghost use Rattle.std.specs.Prelude.{◌≡◌, ◌↔◌, ◌<◌, true, false, IsTrue, IfOk, OnOk, OnErr};
ghost use Rattle.web_disk.specs.View.{View, NoNewImage, Elapses};
ghost use Rattle.disk_trio.specs.Trio.{trio_view, HasFailed, IsReadAlone, AreEmpty, AreSameDisks};

use crate::trio::Disks;
use std::alloc::AllocError;
use web_disk::Disk;
use web_outside::Failed;

impl<D: Disk> Disks<D> {
    /// Whether all three disks are empty, before they are opened.
    pub fn are_empty(&mut self) -> Result<bool, Failed>
        requires known { self.old.known ≡ false }
        ensures empty { IsTrue D.tells → IfOk result (λ empty. IsTrue empty ↔ AreEmpty self.old) }
        ensures known { self.new.known ≡ false }
        ensures read { IsReadAlone self.old self.new }
        ensures cause { OnErr result (HasFailed self.old self.new) }
    {
        let root = self.len_of_root()?;
        let current = self.len_of_current()?;
        let other = self.len_of_other()?;
        Ok(root == 0 && current == 0 && other == 0)
    }

    /// Puts the root on its disk, reads it and turns to the file that it names.
    pub fn open(&mut self) -> Result<(), Failed>
        requires known { self.old.known ≡ false }
        requires room { 0 < (D.view self.old.root).ready }
        ensures known { OnOk result (self.new.known ≡ true) }
        ensures seen { IsTrue D.tells → (trio_view self.new).seen ≡ (trio_view self.old).seen }
        ensures images { NoNewImage (trio_view self.old) (trio_view self.new) }
        ensures time { Elapses (trio_view self.old) (trio_view self.new) }
        ensures cause { OnErr result (HasFailed self.old self.new) }
    {
        self.sync_root()?;
        let side = self.look()?;
        self.turn(side);
        self.learn();
        Ok(())
    }

    /// Forgets which file the root names, so that the same disks can be opened once more. No call of a disk is made.
    pub fn forget(&mut self)
        ensures same { AreSameDisks self.old self.new }
        ensures known { self.new.known ≡ false }
        ensures seen { IsTrue D.tells → (trio_view self.new).seen ≡ (trio_view self.old).seen }
        ensures images { NoNewImage (trio_view self.old) (trio_view self.new) }
        ensures time { Elapses (trio_view self.old) (trio_view self.new) }
        ensures faults { (trio_view self.new).faults ≡ (trio_view self.old).faults }
    {
        self.known = false;
    }

    /// Makes room to open them. It is no device call.
    pub fn room_to_open(&mut self) -> Result<(), AllocError>
        ensures room { OnOk result (0 < (D.view self.new.root).ready) }
        ensures known { self.new.known ≡ self.old.known }
        ensures read { IsReadAlone self.old self.new }
        ensures faults { (trio_view self.new).faults ≡ (trio_view self.old).faults }
    {
        self.room_of_root(1)
    }
}
