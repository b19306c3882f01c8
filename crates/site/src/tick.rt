//! A tick: each shelf is swept, and where that freed an instance, a long journal is compacted.
ghost use Rattle.std.specs.Prelude.{◌≡◌};
ghost use Rattle.site.specs.Passes.{has_freed};

use crate::kept::KeptShelf;
use crate::pass::SitePass;
use crate::site::Site;
use disk_trio::Disks;
use script_value::Reply;
use shelf_lock::Worn;
use std::alloc::{AllocError, Global};
use std::sync::Wait;
use web_disk::Disk;
use web_outside::Nonces;

// Whether a sweep freed an instance.
fn has_freed(swept: &Result<u32, Reply>) -> bool
    ensures { result ≡ has_freed swept.now }
{
    match swept {
        Ok(freed) => *freed > 0,
        Err(_) => false,
    }
}

impl<D: Disk, N: Nonces + Drop> Site<D, N> {
    ghost use Rattle.std.specs.Prelude.{◌<◌, ◌^◌, length};
    ghost use Rattle.site.specs.Sites.{IsOwn, SweptAt};

    fn sweep_at<R: Wait>(
        &self,
        rt: &R,
        alloc: Global,
        pass: &mut SitePass<D, N>,
        shelf: usize,
        tick: u64,
    ) -> Result<u32, Reply>
        requires own { IsOwn self.now pass.old }
        requires shelf { shelf < length self.now.row.homes }
        requires tick { tick < 2 ^ 62 }
        ensures own { IsOwn self.now pass.new }
        ensures swept { SweptAt D.view D.tells N.nonce shelf tick result pass.old pass.new }
    {
        let by = pass.caller();
        let told = self.row.turn(
            rt,
            pass,
            shelf,
            |kept: &mut KeptShelf<D, N>| kept.sweep(alloc, by, tick),
        );
        match told {
            Ok(told) => told,
            Err(Worn) => Err(Reply::Worn),
        }
    }
}

impl<F: Disk, N: Nonces + Drop> Site<Disks<F>, N> {
    ghost use Rattle.std.specs.Prelude.{◌<◌, ◌^◌, length, IfOk, OnErr};
    ghost use Rattle.disk_trio.specs.Trio.{trio_view};
    ghost use Rattle.site.specs.Sites.{IsOwn, CompactedAt, TickedAt, AnswersTick};

    // What a compaction is answered stands in the history alone.
    fn compact_at<R: Wait>(
        &self,
        rt: &R,
        alloc: Global,
        pass: &mut SitePass<Disks<F>, N>,
        shelf: usize,
    )
        requires own { IsOwn self.now pass.old }
        requires shelf { shelf < length self.now.row.homes }
        ensures own { IsOwn self.now pass.new }
        ensures compacted { CompactedAt trio_view F.tells N.nonce shelf pass.old pass.new }
    {
        let by = pass.caller();
        let told = self.row.turn(
            rt,
            pass,
            shelf,
            |kept: &mut KeptShelf<Disks<F>, N>| kept.compact_if_long(alloc, by),
        );
        match told {
            Ok(()) => {}
            Err(Worn) => {}
        }
    }

    fn tick_at<R: Wait>(
        &self,
        rt: &R,
        alloc: Global,
        pass: &mut SitePass<Disks<F>, N>,
        shelf: usize,
        tick: u64,
    ) -> Result<u32, Reply>
        requires own { IsOwn self.now pass.old }
        requires shelf { shelf < length self.now.row.homes }
        requires tick { tick < 2 ^ 62 }
        ensures own { IsOwn self.now pass.new }
        ensures ticked { TickedAt trio_view F.tells N.nonce shelf tick result pass.old pass.new }
    {
        let swept = self.sweep_at(rt, alloc, pass, shelf, tick);
        if has_freed(&swept) {
            self.compact_at(rt, alloc, pass, shelf);
        }
        swept
    }

    /// Sweeps each shelf whose clock is lower than the tick, in seconds: how many instances it freed, or the reply that says
    /// why none, in the order of the shelves. An error is want of memory for their list, and changes nothing.
    ///
    /// After a sweep that freed an instance, in a turn of its own, a journal of 2^29 bytes or more is compacted. What that is
    /// answered stands in the history alone.
    pub fn tick<R: Wait>(
        &self,
        rt: &R,
        alloc: Global,
        pass: &mut SitePass<Disks<F>, N>,
        tick: u64,
    ) -> Result<Vec<Result<u32, Reply>>, AllocError>
        requires own { IsOwn self.now pass.old }
        requires tick { tick < 2 ^ 62 }
        ensures own { IsOwn self.now pass.new }
        ensures swept { IfOk result (AnswersTick trio_view F.tells N.nonce tick pass.old pass.new) }
        ensures memory { OnErr result (pass.new ≡ pass.old) }
    {
        let shelves = self.shelves();
        let mut answers = Vec::with_capacity(alloc, shelves)?;
        for shelf in 0..shelves {
            answers.push_reserved(self.tick_at(rt, alloc, pass, shelf, tick));
        }
        Ok(answers)
    }
}
