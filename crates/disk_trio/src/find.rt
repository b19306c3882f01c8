ghost use Rattle.std.specs.Prelude.{◌≡◌, ◌≤◌, true, false, IsTrue, IfOk, OnOk, OnErr};
ghost use Rattle.web_disk.specs.View.{View, NoNewImage};
ghost use Rattle.disk_trio.specs.Naming.{names};
ghost use Rattle.disk_trio.specs.Trio.{trio_view, HasFailed, read_side, three_of, before, AreSameFiles, IsReadAlone};

use crate::side::{Side, named_by};
use crate::trio::Disks;
use std::mem;
use web_disk::Disk;
use web_outside::Failed;

impl<D: Disk> Disks<D> {
    // Reads which file the root names.
    pub(crate) fn look(&mut self) -> Result<Side, Failed>
        ensures side { IsTrue D.tells → IfOk result (λ s. s ≡ names (D.view self.old.root).seen) }
        ensures files { AreSameFiles self.old self.new }
        ensures seen { (D.view self.new.root).seen ≡ (D.view self.old.root).seen }
        ensures images { NoNewImage (D.view self.old.root) (D.view self.new.root) }
        ensures read { IsReadAlone self.old self.new }
        ensures cause { OnErr result (HasFailed self.old self.new) }
    {
        let len = self.len_of_root()?;
        if len == 0 {
            return Ok(Side::A);
        }
        let mut byte = [0];
        self.read_root(0, &mut byte)?;
        Ok(named_by(byte[0]))
    }

    // Takes the file of this side for the current one.
    pub(crate) fn turn(&mut self, side: Side)
        requires known { self.old.known ≡ false }
        ensures side { self.new.side ≡ side }
        ensures known { self.new.known ≡ false }
        ensures root { self.new.root ≡ self.old.root }
        ensures three { three_of self.new ≡ three_of self.old }
        ensures before { before self.new ≡ before self.old }
    {
        match (side, self.side) {
            (Side::A, Side::A) => (),
            (Side::B, Side::B) => (),
            (Side::A, Side::B) => {
                mem::swap(&mut self.current, &mut self.other);
                self.side = Side::A;
            }
            (Side::B, Side::A) => {
                mem::swap(&mut self.current, &mut self.other);
                self.side = Side::B;
            }
        }
    }

    // Turns to the file that the root names as it reads, where the current one is not known.
    pub(crate) fn find(&mut self) -> Result<(), Failed>
        ensures side { IsTrue D.tells → OnOk result (self.new.side ≡ read_side self.new) }
        ensures known { self.new.known ≡ self.old.known }
        ensures read { IsReadAlone self.old self.new }
        ensures cause { OnErr result (HasFailed self.old self.new) }
    {
        if self.known {
            return Ok(());
        }
        let side = self.look()?;
        self.turn(side);
        Ok(())
    }
}
