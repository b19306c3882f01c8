ghost use Rattle.std.specs.Prelude.{◌≡◌, ◌≤◌, ◌+◌, ◌-◌, ◌^◌, [], All, Some, is_err, map, min, vec_len, IfOk, OnErr, IsErrOf};
ghost use Rattle.web_outside.specs.Causes.{Rose};
ghost use Rattle.web_outside.specs.Doors.{GiveLists, counts_with};

use crate::{CONNECTION_LIMIT, Door, DoorFault, ListPorch, Porch};
use std::alloc::Global;
use std::mem;

/// A door in memory: at its one port it gives its porches to the workers, and keeps those that are closed.
#[derive(Drop)]
pub struct ListDoor {
    port: u16,
    porches: Vec<ListPorch>,
    closed: Vec<ListPorch>,
    // The numbers of the listenings that fail, the first being 0.
    failing: Vec<u64>,
    listens: u64,
    faults: u64,
}

impl ListDoor {
    /// The porches, one for each worker, at this port; the listenings of these numbers fail, the first being 0.
    pub fn new(alloc: Global, port: u16, porches: Vec<ListPorch>, failing: Vec<u64>) -> ListDoor
        ensures port { result.port ≡ port }
        ensures porches { result.porches.items ≡ porches.items }
        ensures closed { result.closed.items ≡ [] }
        ensures failing { result.failing.items ≡ failing.items }
        ensures listens { result.listens ≡ 0 }
        ensures faults { result.faults ≡ 0 }
    {
        ListDoor {
            port,
            porches,
            closed: Vec::new(alloc),
            failing,
            listens: 0,
            faults: 0,
        }
    }

    /// The porches that were closed last, as they were then.
    pub fn closed(&self) -> &[ListPorch]
        ensures { result.now ≡ self.now.closed.items }
    {
        &self.closed
    }
}

ghost use Rattle.web_outside.specs.Lists.{IsOpened, porch_view, door_view, links_at, all_coming, all_failing, all_faults, listen_fails, faults_after_listen, SameDoor};

// Begins each porch anew.
fn open_all(porches: &mut [ListPorch], connections: u64)
    requires { connections ≤ CONNECTION_LIMIT }
    ensures opened { All (IsOpened connections) porches.new }
    ensures coming { all_coming porches.new ≡ all_coming porches.old }
    ensures told { map (λ porch. (porch_view porch).coming) porches.new
        ≡ map Some (all_coming porches.old) }
    ensures failing { all_failing porches.new ≡ all_failing porches.old }
{
    if let Some((first, rest)) = porches.split_first_mut() {
        first.open(connections);
        open_all(rest, connections);
    }
}

// The faults of the porches, up to the type's end.
fn faults_of(porches: &[ListPorch]) -> u64
    ensures { result ≡ min (all_faults porches.now) (2 ^ 64 - 1) }
{
    match porches {
        [] => 0,
        [first, rest @ ..] => first.faults().saturating_add(faults_of(rest)),
    }
}

impl Door for ListDoor {
    type Porch = ListPorch;

    ghost view = { λ door. door_view door };

    fn faults(&self) -> u64 {
        self.faults
    }

    // It fails exactly where it is listed, at another port, and where there is not one porch for each worker.
    fn listen(
        &mut self,
        alloc: Global,
        port: u16,
        workers: u32,
        connections: u64,
    ) -> Result<Vec<ListPorch>, DoorFault>
        requires { connections ≤ CONNECTION_LIMIT }
        ensures count { IfOk result (λ porches. vec_len porches ≡ workers) }
        ensures told { IfOk result (λ porches.
            GiveLists porch_view porches.items (links_at self.old port)) }
        ensures coming { IfOk result (λ porches.
            all_coming porches.items ≡ all_coming self.old.porches.items) }
        ensures opened { IfOk result (λ porches. All (IsOpened connections) porches.items) }
        ensures failing { IfOk result (λ porches.
            all_failing porches.items ≡ all_failing self.old.porches.items) }
        ensures emptied { IfOk result (λ _. self.new.porches.items ≡ []) }
        ensures err { OnErr result (self.new.porches.items ≡ self.old.porches.items) }
        ensures fails { is_err result ≡ listen_fails self.old port workers }
        ensures no_memory { IsErrOf result DoorFault.Memory → ⊥ }
        ensures failed { IsErrOf result DoorFault.Failed → Rose self.old.faults self.new.faults }
        ensures later { self.old.faults ≤ self.new.faults }
        ensures faults { self.new.faults ≡ faults_after_listen result self.old.faults }
        ensures listens { self.new.listens ≡ min (self.old.listens + 1) (2 ^ 64 - 1) }
        ensures closed { self.new.closed.items ≡ self.old.closed.items }
        ensures rules { SameDoor self.old self.new }
    {
        let number = self.listens;
        self.listens = number.saturating_add(1);
        if self.failing.contains(&number)
            || port != self.port
            || self.porches.len() != workers as usize
        {
            self.faults = self.faults.saturating_add(1);
            return Err(DoorFault::Failed);
        }
        let mut porches = mem::replace(&mut self.porches, Vec::new(alloc));
        open_all(&mut porches, connections);
        Ok(porches)
    }

    fn close(&mut self, porches: Vec<ListPorch>)
        ensures closed { self.new.closed.items ≡ porches.items }
        ensures faults { self.new.faults ≡ counts_with porch_view porches.items self.old.faults }
        ensures porches { self.new.porches.items ≡ self.old.porches.items }
        ensures listens { self.new.listens ≡ self.old.listens }
        ensures rules { SameDoor self.old self.new }
    {
        self.faults = self.faults.saturating_add(faults_of(&porches));
        self.closed = porches;
    }
}
