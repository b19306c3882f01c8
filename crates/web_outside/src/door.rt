ghost use Rattle.std.specs.Prelude.{◌≡◌, ◌≤◌, All, vec_len, IfOk, IfSome, OnErr, IsErrOf};
ghost use Rattle.web_outside.specs.Causes.{Rose};
ghost use Rattle.web_outside.specs.View.{DoorView};
ghost use Rattle.web_outside.specs.Doors.{GiveLists, HaveNone, counts_with};
ghost use Rattle.web_outside.specs.declared.door.DoorFault.TheVariants.{Failed as DoorFailed, Memory as DoorMemory};

use crate::{CONNECTION_LIMIT, Failed, Porch};
use std::alloc::{AllocError, Global};
use thiserror::Error;

/// Why a door does not listen.
#[derive(Clone, Copy, Debug, PartialEq, Eq, Error)]
pub enum DoorFault {
    /// The door failed.
    #[error("the door failed")]
    Failed,
    /// Memory ran out.
    #[error("memory ran out")]
    Memory,
}

impl From<Failed> for DoorFault {
    ghost from_gives = { λ _ fault. fault ≡ DoorFailed };

    fn from(_: Failed) -> Self {
        DoorFault::Failed
    }
}

impl From<AllocError> for DoorFault {
    ghost from_gives = { λ _ fault. fault ≡ DoorMemory };

    fn from(_: AllocError) -> Self {
        DoorFault::Memory
    }
}

/// Where links come in, and are dealt out to workers.
pub trait Door {
    /// Where a worker gets its links.
    type Porch: Porch;

    /// What contracts see of it.
    ghost view: { Self → DoorView Self.Porch Self.Porch.Link };

    /// How often a call failed, up to the type's end.
    fn faults(&self) -> u64
        ensures { result ≡ (view self.now).faults };

    /// Listens at the port: a porch for each worker, which gives it at most so many of the links that come in there.
    fn listen(
        &mut self,
        alloc: Global,
        port: u16,
        workers: u32,
        connections: u64,
    ) -> Result<Vec<Self::Porch>, DoorFault>
        requires { connections ≤ CONNECTION_LIMIT }
        ensures count { IfOk result (λ porches. vec_len porches ≡ workers) }
        ensures told { IfOk result (λ porches.
            GiveLists Self.Porch.view porches.items ((view self.old).links port)) }
        ensures served { IfOk result (λ porches. HaveNone Self.Porch.view porches.items) }
        ensures given { IfOk result (λ porches.
            All (λ porch. (Self.Porch.view porch).given ≡ 0) porches.items) }
        ensures most { IfOk result (λ porches.
            All (λ porch. (Self.Porch.view porch).most ≡ connections) porches.items) }
        ensures fresh { IfOk result (λ porches.
            All (λ porch. (Self.Porch.view porch).faults ≡ 0) porches.items) }
        ensures err { OnErr result ((view self.new).links ≡ (view self.old).links) }
        ensures closed { (view self.new).closed ≡ (view self.old).closed }
        ensures failed { IsErrOf result DoorFault.Failed →
            Rose (view self.old).faults (view self.new).faults }
        ensures later { (view self.old).faults ≤ (view self.new).faults };

    /// Listens no more. The faults of the porches count as the door's.
    fn close(&mut self, porches: Vec<Self::Porch>)
        ensures closed { IfSome (view self.new).closed (λ kept. kept ≡ porches.items) }
        ensures links { (view self.new).links ≡ (view self.old).links }
        ensures faults { (view self.new).faults ≡ counts_with Self.Porch.view porches.items
            (view self.old).faults };
}
