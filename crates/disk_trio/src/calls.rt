ghost use Rattle.std.specs.Prelude.{◌≡◌, ◌+◌, ◌<◌, ◌≤◌, ◌∷◌, length, false, IsTrue, IfOk, OnOk};
ghost use Rattle.web_disk.specs.View.{Only, Spoils, Cuts, NoNewImage, Elapses, IsCall};
ghost use Rattle.disk_trio.specs.Calls.{CutsTo, ReadsAt, WritesAt};
ghost use Rattle.disk_trio.specs.Trio.{before_in, three, IsOnCurrent, IsOnOther, IsOnRoot};

use crate::side::Side;
use crate::trio::{Disks, Moment};
use ghost_history::Past;
use std::alloc::AllocError;
use std::mem;
use std::snapshot::Snapshot;
use web_disk::Disk;
use web_outside::Failed;

// Keeps what the three disks are, in front of a call of one of them.
fn note<D>(past: &mut Snapshot<Past<Moment<D>>>, side: Side, current: &D, other: &D, root: &D)
    ensures { before_in past.new.value
        ≡ three side current.now other.now root.now ∷ before_in past.old.value }
{
    let before = mem::replace(past, Snapshot::of(&Past::Nothing));
    let entry = Moment {
        side,
        current: Snapshot::of(current),
        other: Snapshot::of(other),
        root: Snapshot::of(root),
    };
    *past = Snapshot::of(&Past::Then { before, entry });
}

// Each is one call of one disk, in front of which what the three disks were is kept.
impl<D: Disk> Disks<D> {
    pub(crate) fn len_of_current(&mut self) -> Result<u64, Failed>
        ensures alone { IsOnCurrent self.old self.new }
        ensures len { IsTrue D.tells →
            IfOk result (λ len. len ≡ length (D.view self.old.current).seen) }
        ensures seen { (D.view self.new.current).seen ≡ (D.view self.old.current).seen }
        ensures images { NoNewImage (D.view self.old.current) (D.view self.new.current) }
        ensures call { IsCall 0 (D.view self.old.current) (D.view self.new.current) result }
        ensures ready { (D.view self.new.current).ready ≡ (D.view self.old.current).ready }
    {
        note(
            &mut self.past,
            self.side,
            &self.current,
            &self.other,
            &self.root,
        );
        self.current.len()
    }

    pub(crate) fn read_current(&mut self, place: u64, buf: &mut [u8]) -> Result<(), Failed>
        requires { IsTrue D.tells →
            place + length buf.old ≤ length (D.view self.old.current).seen }
        ensures alone { IsOnCurrent self.old self.new }
        ensures bytes { IsTrue D.tells →
            ReadsAt (D.view self.old.current) place buf.old buf.new result }
        ensures seen { (D.view self.new.current).seen ≡ (D.view self.old.current).seen }
        ensures images { NoNewImage (D.view self.old.current) (D.view self.new.current) }
        ensures call { IsCall 0 (D.view self.old.current) (D.view self.new.current) result }
        ensures ready { (D.view self.new.current).ready ≡ (D.view self.old.current).ready }
    {
        note(
            &mut self.past,
            self.side,
            &self.current,
            &self.other,
            &self.root,
        );
        self.current.read(place, buf)
    }

    pub(crate) fn write_current(&mut self, place: u64, piece: &[u8]) -> Result<(), Failed>
        requires inside { IsTrue D.tells → place ≤ length (D.view self.old.current).seen }
        requires end { place + length piece.now ≤ (D.view self.old.current).end }
        requires left { length piece.now ≤ (D.view self.old.current).left }
        requires ready { 0 < (D.view self.old.current).ready }
        ensures alone { IsOnCurrent self.old self.new }
        ensures written { IsTrue D.tells → WritesAt place piece.now
            (D.view self.old.current) (D.view self.new.current) result }
        ensures images { Spoils place (place + length piece.now)
            (D.view self.old.current) (D.view self.new.current) }
        ensures call { IsCall (length piece.now)
            (D.view self.old.current) (D.view self.new.current) result }
    {
        note(
            &mut self.past,
            self.side,
            &self.current,
            &self.other,
            &self.root,
        );
        self.current.write_at(place, piece)
    }

    pub(crate) fn cut_current(&mut self, len: u64) -> Result<(), Failed>
        requires inside { IsTrue D.tells → len ≤ length (D.view self.old.current).seen }
        requires ready { 0 < (D.view self.old.current).ready }
        ensures alone { IsOnCurrent self.old self.new }
        ensures cut { IsTrue D.tells →
            CutsTo len (D.view self.old.current) (D.view self.new.current) result }
        ensures images { Cuts len (D.view self.old.current) (D.view self.new.current) }
        ensures call { IsCall 0 (D.view self.old.current) (D.view self.new.current) result }
    {
        note(
            &mut self.past,
            self.side,
            &self.current,
            &self.other,
            &self.root,
        );
        self.current.cut(len)
    }

    pub(crate) fn sync_current(&mut self) -> Result<(), Failed>
        requires { 0 < (D.view self.old.current).ready }
        ensures alone { IsOnCurrent self.old self.new }
        ensures durable { OnOk result
            (Only (D.view self.old.current).seen (D.view self.new.current)) }
        ensures seen { (D.view self.new.current).seen ≡ (D.view self.old.current).seen }
        ensures images { NoNewImage (D.view self.old.current) (D.view self.new.current) }
        ensures call { IsCall 0 (D.view self.old.current) (D.view self.new.current) result }
    {
        note(
            &mut self.past,
            self.side,
            &self.current,
            &self.other,
            &self.root,
        );
        self.current.sync()
    }

    pub(crate) fn room_of_current(&mut self, end: u64) -> Result<(), AllocError>
        ensures alone { IsOnCurrent self.old self.new }
        ensures calls { OnOk result (8 ≤ (D.view self.new.current).ready) }
        ensures end { OnOk result (end ≤ (D.view self.new.current).end) }
        ensures left { OnOk result (end ≤ (D.view self.new.current).left) }
        ensures seen { (D.view self.new.current).seen ≡ (D.view self.old.current).seen }
        ensures images { NoNewImage (D.view self.old.current) (D.view self.new.current) }
        ensures time { Elapses (D.view self.old.current) (D.view self.new.current) }
        ensures faults { (D.view self.new.current).faults ≡ (D.view self.old.current).faults }
    {
        note(
            &mut self.past,
            self.side,
            &self.current,
            &self.other,
            &self.root,
        );
        self.current.room(end)
    }

    pub(crate) fn len_of_other(&mut self) -> Result<u64, Failed>
        ensures alone { IsOnOther self.old self.new }
        ensures len { IsTrue D.tells →
            IfOk result (λ len. len ≡ length (D.view self.old.other).seen) }
        ensures seen { (D.view self.new.other).seen ≡ (D.view self.old.other).seen }
        ensures images { NoNewImage (D.view self.old.other) (D.view self.new.other) }
        ensures call { IsCall 0 (D.view self.old.other) (D.view self.new.other) result }
        ensures ready { (D.view self.new.other).ready ≡ (D.view self.old.other).ready }
    {
        note(
            &mut self.past,
            self.side,
            &self.current,
            &self.other,
            &self.root,
        );
        self.other.len()
    }

    pub(crate) fn write_other(&mut self, place: u64, piece: &[u8]) -> Result<(), Failed>
        requires inside { IsTrue D.tells → place ≤ length (D.view self.old.other).seen }
        requires end { place + length piece.now ≤ (D.view self.old.other).end }
        requires left { length piece.now ≤ (D.view self.old.other).left }
        requires ready { 0 < (D.view self.old.other).ready }
        ensures alone { IsOnOther self.old self.new }
        ensures written { IsTrue D.tells → WritesAt place piece.now
            (D.view self.old.other) (D.view self.new.other) result }
        ensures images { Spoils place (place + length piece.now)
            (D.view self.old.other) (D.view self.new.other) }
        ensures call { IsCall (length piece.now)
            (D.view self.old.other) (D.view self.new.other) result }
    {
        note(
            &mut self.past,
            self.side,
            &self.current,
            &self.other,
            &self.root,
        );
        self.other.write_at(place, piece)
    }

    pub(crate) fn cut_other(&mut self, len: u64) -> Result<(), Failed>
        requires inside { IsTrue D.tells → len ≤ length (D.view self.old.other).seen }
        requires ready { 0 < (D.view self.old.other).ready }
        ensures alone { IsOnOther self.old self.new }
        ensures cut { IsTrue D.tells →
            CutsTo len (D.view self.old.other) (D.view self.new.other) result }
        ensures images { Cuts len (D.view self.old.other) (D.view self.new.other) }
        ensures call { IsCall 0 (D.view self.old.other) (D.view self.new.other) result }
    {
        note(
            &mut self.past,
            self.side,
            &self.current,
            &self.other,
            &self.root,
        );
        self.other.cut(len)
    }

    pub(crate) fn sync_other(&mut self) -> Result<(), Failed>
        requires { 0 < (D.view self.old.other).ready }
        ensures alone { IsOnOther self.old self.new }
        ensures durable { OnOk result
            (Only (D.view self.old.other).seen (D.view self.new.other)) }
        ensures seen { (D.view self.new.other).seen ≡ (D.view self.old.other).seen }
        ensures images { NoNewImage (D.view self.old.other) (D.view self.new.other) }
        ensures call { IsCall 0 (D.view self.old.other) (D.view self.new.other) result }
    {
        note(
            &mut self.past,
            self.side,
            &self.current,
            &self.other,
            &self.root,
        );
        self.other.sync()
    }

    pub(crate) fn room_of_other(&mut self, end: u64) -> Result<(), AllocError>
        ensures alone { IsOnOther self.old self.new }
        ensures calls { OnOk result (8 ≤ (D.view self.new.other).ready) }
        ensures end { OnOk result (end ≤ (D.view self.new.other).end) }
        ensures left { OnOk result (end ≤ (D.view self.new.other).left) }
        ensures seen { (D.view self.new.other).seen ≡ (D.view self.old.other).seen }
        ensures images { NoNewImage (D.view self.old.other) (D.view self.new.other) }
        ensures time { Elapses (D.view self.old.other) (D.view self.new.other) }
        ensures faults { (D.view self.new.other).faults ≡ (D.view self.old.other).faults }
    {
        note(
            &mut self.past,
            self.side,
            &self.current,
            &self.other,
            &self.root,
        );
        self.other.room(end)
    }

    pub(crate) fn len_of_root(&mut self) -> Result<u64, Failed>
        ensures alone { IsOnRoot self.old self.new }
        ensures len { IsTrue D.tells →
            IfOk result (λ len. len ≡ length (D.view self.old.root).seen) }
        ensures seen { (D.view self.new.root).seen ≡ (D.view self.old.root).seen }
        ensures images { NoNewImage (D.view self.old.root) (D.view self.new.root) }
        ensures call { IsCall 0 (D.view self.old.root) (D.view self.new.root) result }
        ensures ready { (D.view self.new.root).ready ≡ (D.view self.old.root).ready }
    {
        note(
            &mut self.past,
            self.side,
            &self.current,
            &self.other,
            &self.root,
        );
        self.root.len()
    }

    pub(crate) fn read_root(&mut self, place: u64, buf: &mut [u8]) -> Result<(), Failed>
        requires { IsTrue D.tells → place + length buf.old ≤ length (D.view self.old.root).seen }
        ensures alone { IsOnRoot self.old self.new }
        ensures bytes { IsTrue D.tells →
            ReadsAt (D.view self.old.root) place buf.old buf.new result }
        ensures seen { (D.view self.new.root).seen ≡ (D.view self.old.root).seen }
        ensures images { NoNewImage (D.view self.old.root) (D.view self.new.root) }
        ensures call { IsCall 0 (D.view self.old.root) (D.view self.new.root) result }
        ensures ready { (D.view self.new.root).ready ≡ (D.view self.old.root).ready }
    {
        note(
            &mut self.past,
            self.side,
            &self.current,
            &self.other,
            &self.root,
        );
        self.root.read(place, buf)
    }

    pub(crate) fn write_root(&mut self, place: u64, piece: &[u8]) -> Result<(), Failed>
        requires inside { IsTrue D.tells → place ≤ length (D.view self.old.root).seen }
        requires end { place + length piece.now ≤ (D.view self.old.root).end }
        requires left { length piece.now ≤ (D.view self.old.root).left }
        requires ready { 0 < (D.view self.old.root).ready }
        requires known { self.old.known ≡ false }
        ensures alone { IsOnRoot self.old self.new }
        ensures written { IsTrue D.tells → WritesAt place piece.now
            (D.view self.old.root) (D.view self.new.root) result }
        ensures images { Spoils place (place + length piece.now)
            (D.view self.old.root) (D.view self.new.root) }
        ensures call { IsCall (length piece.now)
            (D.view self.old.root) (D.view self.new.root) result }
    {
        note(
            &mut self.past,
            self.side,
            &self.current,
            &self.other,
            &self.root,
        );
        self.root.write_at(place, piece)
    }

    pub(crate) fn sync_root(&mut self) -> Result<(), Failed>
        requires { 0 < (D.view self.old.root).ready }
        ensures alone { IsOnRoot self.old self.new }
        ensures durable { OnOk result
            (Only (D.view self.old.root).seen (D.view self.new.root)) }
        ensures seen { (D.view self.new.root).seen ≡ (D.view self.old.root).seen }
        ensures images { NoNewImage (D.view self.old.root) (D.view self.new.root) }
        ensures call { IsCall 0 (D.view self.old.root) (D.view self.new.root) result }
    {
        note(
            &mut self.past,
            self.side,
            &self.current,
            &self.other,
            &self.root,
        );
        self.root.sync()
    }

    pub(crate) fn room_of_root(&mut self, end: u64) -> Result<(), AllocError>
        ensures alone { IsOnRoot self.old self.new }
        ensures calls { OnOk result (8 ≤ (D.view self.new.root).ready) }
        ensures end { OnOk result (end ≤ (D.view self.new.root).end) }
        ensures left { OnOk result (end ≤ (D.view self.new.root).left) }
        ensures seen { (D.view self.new.root).seen ≡ (D.view self.old.root).seen }
        ensures images { NoNewImage (D.view self.old.root) (D.view self.new.root) }
        ensures time { Elapses (D.view self.old.root) (D.view self.new.root) }
        ensures faults { (D.view self.new.root).faults ≡ (D.view self.old.root).faults }
    {
        note(
            &mut self.past,
            self.side,
            &self.current,
            &self.other,
            &self.root,
        );
        self.root.room(end)
    }
}
