ghost use Rattle.std.specs.Prelude.{◌≡◌, [], ◌≤◌, List, ℕ, length, true, false, IsTrue, OnOk, OnErr};
ghost use Rattle.web_disk.specs.View.{LeavesOnly, NoNewImage};
ghost use Rattle.disk_trio.specs.Naming.{AllName, other_side};
ghost use Rattle.disk_trio.specs.Trio.{trio_view, HasFailed, three_of, before, IsReadAlone, AreSameDisks};
ghost use Rattle.disk_trio.specs.Filling.{HasRoomToFill, HasRoomToSwitch, IsFilled, KeepsFiles, IsSwitched, MayBeEither, KeepsOther};

use crate::side::Side;
use crate::trio::Disks;
use ghost_history::Past;
use std::alloc::AllocError;
use std::snapshot::Snapshot;
use web_disk::Disk;
use web_outside::Failed;

impl<D: Disk> Disks<D> {
    /// Three disks, of which it is not known yet which file the root names.
    pub fn new(a: D, b: D, root: D) -> Disks<D>
        ensures three { three_of result ≡ record { a = a; b = b; root = root } }
        ensures before { before result ≡ [] }
        ensures known { result.known ≡ false }
    {
        Disks {
            current: a,
            other: b,
            root,
            side: Side::A,
            known: false,
            past: Snapshot::of(&Past::Nothing),
        }
    }

    /// Gives the three disks back as disks of which nothing is known.
    pub fn renew(self) -> Disks<D>
        ensures three { three_of result ≡ three_of self }
        ensures before { before result ≡ [] }
        ensures known { result.known ≡ false }
    {
        let Disks {
            current,
            other,
            root,
            side,
            known: _,
            past: _,
        } = self;
        Disks {
            current,
            other,
            root,
            side,
            known: false,
            past: Snapshot::of(&Past::Nothing),
        }
    }

    /// The three disks: a, b and the root.
    pub fn close(self) -> (D, D, D)
        ensures a { result.0 ≡ (three_of self).a }
        ensures b { result.1 ≡ (three_of self).b }
        ensures root { result.2 ≡ (three_of self).root }
    {
        let Disks {
            current,
            other,
            root,
            side,
            known: _,
            past: _,
        } = self;
        match side {
            Side::A => (current, other, root),
            Side::B => (other, current, root),
        }
    }

    // Whatever a crash leaves of the root names the current file.
    pub(crate) fn learn(&mut self)
        requires named { IsTrue D.tells → AllName (D.view self.old.root).images self.old.side }
        ensures same { AreSameDisks self.old self.new }
        ensures known { self.new.known ≡ true }
    {
        self.known = true;
    }

    /// Makes room for a fill with so many bytes, and for a switch after it, where it is known which file is the current one. No
    /// call of a disk is made that could fail.
    pub fn room_to_fill(&mut self, len: u64) -> Result<(), AllocError>
        ensures fill { OnOk result (HasRoomToFill self.new len) }
        ensures switch { OnOk result (HasRoomToSwitch self.new) }
        ensures known { OnOk result (self.new.known ≡ true) }
        ensures read { IsReadAlone self.old self.new }
        ensures faults { (trio_view self.new).faults ≡ (trio_view self.old).faults }
    {
        if !self.known {
            return Err(AllocError);
        }
        self.room_of_other(len)?;
        self.room_of_root(1)
    }

    /// Writes the other file whole, and puts it on its disk. At each moment a crash leaves of the root and of the current file what it
    /// might have left before.
    pub fn fill(&mut self, file: &[u8]) -> Result<(), Failed>
        requires known { self.old.known ≡ true }
        requires room { HasRoomToFill self.old (length file.now) }
        ensures keeps { KeepsFiles self.old self.new }
        ensures filled { IsTrue D.tells → OnOk result (IsFilled file.now self.new) }
        ensures any_moment { LeavesOnly (trio_view self.old) (trio_view self.new)
            (trio_view self.old).images }
        ensures now { NoNewImage (trio_view self.old) (trio_view self.new) }
        ensures cause { OnErr result (HasFailed self.old self.new) }
        ensures later { (trio_view self.old).faults ≤ (trio_view self.new).faults }
    {
        self.cut_other(0)?;
        self.write_other(0, file)?;
        self.sync_other()
    }

    /// Lets the root name the other file, which is the current one from `Ok` on. At each moment a crash leaves of both files what it
    /// might have left before; from `Ok` on whatever it leaves of the root names that one.
    pub fn switch(&mut self) -> Result<(), Failed>
        requires known { self.old.known ≡ true }
        requires room { HasRoomToSwitch self.old }
        ensures keeps { KeepsOther self.old self.new }
        ensures switched { OnOk result (IsSwitched self.old self.new) }
        ensures named { IsTrue D.tells →
            OnOk result (AllName (D.view self.new.root).images (other_side self.old.side)) }
        ensures unknown { OnErr result (self.new.known ≡ false) }
        ensures any_moment { LeavesOnly (trio_view self.old) (trio_view self.new)
            (MayBeEither self.old) }
        ensures now { (image : List ℕ) → (trio_view self.new).images image
            → MayBeEither self.old image }
        ensures cause { OnErr result (HasFailed self.old self.new) }
        ensures later { (trio_view self.old).faults ≤ (trio_view self.new).faults }
    {
        let side = self.side.other();
        self.forget();
        self.write_root(0, &[side.byte()])?;
        self.sync_root()?;
        self.turn(side);
        self.learn();
        Ok(())
    }
}
