use crate::pass::SitePass;
use crate::site::Site;
use disk_trio::Disks;
use http_forms::Answering;
use page_names::Target;
use script_value::{Reply, Value};
use std::alloc::{AllocError, Global};
use std::sync::Wait;
use web_disk::Disk;
use web_outside::{Gate, Nonces};

/// A site with the runtime that its calls wait by.
#[derive(Clone, Copy)]
pub struct Running<'a, R, D: Disk, N: Nonces + Drop> {
    pub rt: &'a R,
    pub site: &'a Site<D, N>,
}

impl<R: Wait, F: Disk, N: Nonces + Drop> Answering for Running<'_, R, Disks<F>, N> {
    ghost use Rattle.disk_trio.specs.Trio.{trio_view};
    ghost use Rattle.site.specs.Rules.{site_rules};

    type Pass = SitePass<Disks<F>, N>;

    ghost rules = { λ a. site_rules trio_view F.tells N.nonce a.site.now };

    fn visit<G: Gate>(
        &self,
        alloc: Global,
        pass: &mut SitePass<Disks<F>, N>,
        target: &Target,
        answer: Value,
        gate: &G,
    ) -> Reply {
        self.site.visit(self.rt, alloc, pass, target, answer, gate)
    }

    fn tick(
        &self,
        alloc: Global,
        pass: &mut SitePass<Disks<F>, N>,
        tick: u64,
    ) -> Result<Vec<Result<u32, Reply>>, AllocError> {
        self.site.tick(self.rt, alloc, pass, tick)
    }
}
