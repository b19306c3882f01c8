ghost use Rattle.std.specs.Prelude.{◌≡◌, ◌+◌, ◌<◌, ◌≤◌, Bool, IsTrue, List, ℕ, length, take, drop, IfOk, OnOk};
ghost use Rattle.web_disk.specs.View.{View, Only, Spoils, Cuts, NoNewImage, Holds, Elapses, IsCall};

use std::alloc::AllocError;
use web_outside::Failed;

/// A disk. Whatever its calls answer, contracts see what a read gives, what a crash may leave at each moment, and how often a call failed.
pub trait Disk {
    /// Whether it tells what a read gives. A file cannot.
    ghost tells: { Bool };

    /// What contracts see of it.
    ghost view: { Self → View };

    /// How often a device call failed, up to the type's end.
    fn faults(&self) -> u64
        ensures { result ≡ (view self.now).faults };

    /// How many bytes it has.
    fn len(&mut self) -> Result<u64, Failed>
        ensures len { IsTrue tells → IfOk result (λ len. len ≡ length (view self.old).seen) }
        ensures seen { (view self.new).seen ≡ (view self.old).seen }
        ensures images { NoNewImage (view self.old) (view self.new) }
        ensures call { IsCall 0 (view self.old) (view self.new) result }
        ensures ready { (view self.new).ready ≡ (view self.old).ready };

    /// Fills the buffer with the bytes from a place on. No byte is asked for past the end.
    fn read(&mut self, place: u64, buf: &mut [u8]) -> Result<(), Failed>
        requires { IsTrue tells → place + length buf.old ≤ length (view self.old).seen }
        ensures bytes { IsTrue tells →
            OnOk result (buf.new ≡ take (length buf.old) (drop place (view self.old).seen)) }
        ensures seen { (view self.new).seen ≡ (view self.old).seen }
        ensures images { NoNewImage (view self.old) (view self.new) }
        ensures call { IsCall 0 (view self.old) (view self.new) result }
        ensures ready { (view self.new).ready ≡ (view self.old).ready };

    /// Writes over the bytes from a place on, and past the end. Until a sync, a crash may leave any bytes in this range and past the end of the last sync; so it may where the call fails.
    fn write_at(&mut self, place: u64, piece: &[u8]) -> Result<(), Failed>
        requires inside { IsTrue tells → place ≤ length (view self.old).seen }
        requires end { place + length piece.now ≤ (view self.old).end }
        requires left { length piece.now ≤ (view self.old).left }
        requires ready { 0 < (view self.old).ready }
        ensures written { IsTrue tells →
            OnOk result (Holds (view self.old).seen place piece.now (view self.new).seen) }
        ensures images { Spoils place (place + length piece.now) (view self.old) (view self.new) }
        ensures call { IsCall (length piece.now) (view self.old) (view self.new) result };

    /// Leaves the first `len` bytes. Until a sync, a crash may leave any bytes after them; so it may where the call fails.
    fn cut(&mut self, len: u64) -> Result<(), Failed>
        requires inside { IsTrue tells → len ≤ length (view self.old).seen }
        requires ready { 0 < (view self.old).ready }
        ensures cut { IsTrue tells →
            OnOk result ((view self.new).seen ≡ take len (view self.old).seen) }
        ensures images { Cuts len (view self.old) (view self.new) }
        ensures call { IsCall 0 (view self.old) (view self.new) result };

    /// Puts all that was written on the disk: after it a crash leaves what a read gives.
    fn sync(&mut self) -> Result<(), Failed>
        requires { 0 < (view self.old).ready }
        ensures durable { OnOk result (Only (view self.old).seen (view self.new)) }
        ensures seen { (view self.new).seen ≡ (view self.old).seen }
        ensures images { NoNewImage (view self.old) (view self.new) }
        ensures call { IsCall 0 (view self.old) (view self.new) result };

    /// Makes room for the next eight writes, cuts and syncs, up to a length of `end`, with pieces of as many bytes in all. It is no device call.
    fn room(&mut self, end: u64) -> Result<(), AllocError>
        ensures calls { OnOk result (8 ≤ (view self.new).ready) }
        ensures end { OnOk result (end ≤ (view self.new).end) }
        ensures left { OnOk result (end ≤ (view self.new).left) }
        ensures seen { (view self.new).seen ≡ (view self.old).seen }
        ensures images { NoNewImage (view self.old) (view self.new) }
        ensures time { Elapses (view self.old) (view self.new) }
        ensures faults { (view self.new).faults ≡ (view self.old).faults };

    /// This moment is one of those since an earlier one.
    ghost counts_now: { (disk : Self) (t : ℕ) (image : List ℕ) → t ≤ (view disk).moment → (view disk).images image → (view disk).since t image };

    /// Since this moment there is no other.
    ghost only_now: { (disk : Self) (image : List ℕ) → (view disk).since (view disk).moment image → (view disk).images image };

    /// What a read gives is one of the images.
    ghost reads_image: { (disk : Self) → IsTrue tells → (view disk).images (view disk).seen };
}
