ghost use Rattle.std.specs.Prelude.{◌≡◌, ◌≤◌, ◌+◌, ◌-◌, ◌^◌, true, min, replicate, vec_len, IfOk, IfSome, IsErrOf};
ghost use Rattle.web_outside.specs.Causes.{Rose};
ghost use Rattle.web_outside.specs.View.{SeedsView};
ghost use Rattle.web_outside.specs.declared.seeds.SeedFault.TheVariants.{Failed as SeedFailed, Memory as SeedMemory};

use crate::nonces::counters;
use crate::{Counting, Failed, Nonces};
use std::alloc::{AllocError, AllocFailed, Global};
use thiserror::Error;

/// Why no sources of nonces were drawn.
#[derive(Clone, Copy, Debug, PartialEq, Eq, Error)]
pub enum SeedFault {
    /// The seeds failed.
    #[error("the seeds failed")]
    Failed,
    /// Memory ran out.
    #[error("memory ran out")]
    Memory,
}

impl From<Failed> for SeedFault {
    ghost from_gives = { λ _ fault. fault ≡ SeedFailed };

    fn from(_: Failed) -> Self {
        SeedFault::Failed
    }
}

impl From<AllocError> for SeedFault {
    ghost from_gives = { λ _ fault. fault ≡ SeedMemory };

    fn from(_: AllocError) -> Self {
        SeedFault::Memory
    }
}

impl<T: Drop> From<AllocFailed<T>> for SeedFault {
    ghost from_gives = { λ _ fault. fault ≡ SeedMemory };

    fn from(_: AllocFailed<T>) -> Self {
        SeedFault::Memory
    }
}

/// Where sources of nonces are drawn from.
pub trait Seeds<N: Nonces> {
    /// What contracts see of them.
    ghost view: { Self → SeedsView N };

    /// How often a call failed, up to the type's end.
    fn faults(&self) -> u64
        ensures { result ≡ (view self.now).faults };

    /// Draws so many sources of nonces.
    fn draw(&mut self, alloc: Global, count: u32) -> Result<Vec<N>, SeedFault>
        ensures count { IfOk result (λ sources. vec_len sources ≡ count) }
        ensures told { IfOk result (λ sources.
            IfSome ((view self.old).gives count) (λ told. sources.items ≡ told)) }
        ensures failed { IsErrOf result SeedFault.Failed →
            Rose (view self.old).faults (view self.new).faults }
        ensures later { (view self.old).faults ≤ (view self.new).faults };
}

/// Seeds in memory: each source that they give counts from 0 on.
#[derive(Drop)]
pub struct ListSeeds {
    // The numbers of the draws that fail, the first being 0.
    failing: Vec<u64>,
    draws: u64,
    faults: u64,
}

impl ListSeeds {
    /// The draws of these numbers fail, the first being 0.
    pub fn new(failing: Vec<u64>) -> ListSeeds
        ensures failing { result.failing.items ≡ failing.items }
        ensures draws { result.draws ≡ 0 }
        ensures faults { result.faults ≡ 0 }
    {
        ListSeeds {
            failing,
            draws: 0,
            faults: 0,
        }
    }
}

impl Seeds<Counting> for ListSeeds {
    ghost use Rattle.web_outside.specs.Views.{is_listed};
    ghost use Rattle.web_outside.specs.Counted.{from_zero};
    ghost use Rattle.web_outside.specs.Lists.{faults_after_draw, seeds_view};

    ghost view = { λ seeds. seeds_view seeds };

    fn faults(&self) -> u64 {
        self.faults
    }

    // It fails exactly where it is listed.
    fn draw(&mut self, alloc: Global, count: u32) -> Result<Vec<Counting>, SeedFault>
        ensures count { IfOk result (λ sources. vec_len sources ≡ count) }
        ensures told { IfOk result (λ sources. sources.items ≡ replicate count from_zero) }
        ensures fails { is_listed self.old.draws self.old.failing.items ≡ true →
            IsErrOf result SeedFault.Failed }
        ensures fails_only { IsErrOf result SeedFault.Failed →
            is_listed self.old.draws self.old.failing.items ≡ true }
        ensures failed { IsErrOf result SeedFault.Failed → Rose self.old.faults self.new.faults }
        ensures later { self.old.faults ≤ self.new.faults }
        ensures faults { self.new.faults ≡ faults_after_draw result self.old.faults }
        ensures draws { self.new.draws ≡ min (self.old.draws + 1) (2 ^ 64 - 1) }
        ensures rules { self.new.failing.items ≡ self.old.failing.items }
    {
        let number = self.draws;
        self.draws = number.saturating_add(1);
        if self.failing.contains(&number) {
            self.faults = self.faults.saturating_add(1);
            return Err(SeedFault::Failed);
        }
        Ok(counters(alloc, count)?)
    }
}
