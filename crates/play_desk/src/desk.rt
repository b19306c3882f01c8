ghost use Rattle.std.specs.Prelude.{◌&&◌};

use crate::crashing::crash;
use crate::editing::edited;
use crate::staff::{Staff, compact, holds, publish, sweep, take};
use disk_trio::Disks;
use play_steps::{Reopen, Stage};
use script_nodes::Setup;
use script_value::Reply;
use std::alloc::{AllocError, Global};
use std::marker::PhantomData;
use web_disk::{Disk, Rack};

/// What the steps of a run are performed on: shelves, each on three disks of a rack, the tickets that workers
/// hold, and the setup that a shelf is opened with next.
pub struct Desk<'s, F: Disk, R> {
    pub(crate) alloc: Global,
    pub(crate) setup: Setup,
    pub(crate) directory: &'s str,
    pub(crate) staff: Staff<Disks<F>>,
    pub(crate) devices: PhantomData<R>,
}

impl<'s, F: Disk, R: Rack<F>> Stage for Desk<'s, F, R> {
    ghost use Rattle.disk_trio.specs.Trio.{trio_view};
    ghost use Rattle.trio_rack.specs.Trios.{shelves_of};
    ghost use Rattle.script_nodes.specs.Views.{scripts_of};
    ghost use Rattle.play_desk.specs.Asking.{HasAsked};
    ghost use Rattle.play_desk.specs.Desk.{desk_rules};
    ghost use Rattle.play_desk.specs.Opening.{IsLeft};
    ghost use Rattle.play_desk.specs.Staff.{IsHome, IsOwn, IsReady, desk_of, faults_in, total};

    type Devices = R;

    ghost rules = { desk_rules };

    ghost tells = { R.tells && F.tells };

    ghost state = { λ d. desk_of trio_view (scripts_of d.setup) d.staff };

    ghost sound = { λ d. IsReady trio_view F.tells (scripts_of d.setup) d.staff };

    ghost own = { λ d. IsOwn trio_view F.tells d.staff };

    ghost at_home = { λ d rack. IsHome d.staff.shelves.items (shelves_of (R.view rack)).out };

    ghost faults = { λ d rack.
        total (R.view rack).faults (faults_in trio_view d.staff.shelves.items) };

    ghost failed = { λ rack. (shelves_of (R.view rack)).failed };

    ghost asked = { λ rack. HasAsked (R.view rack) };

    ghost left = { λ rack. IsLeft (R.view rack) };

    fn shelves(&self) -> u32 {
        self.staff.shelves.len() as u32
    }

    fn holds(&self, worker: u32) -> bool {
        holds(&self.staff, worker)
    }

    fn take(&mut self, worker: u32, target: &[u8]) -> Result<u64, Reply> {
        take(self.alloc, &mut self.staff, worker, target)
    }

    fn publish(&mut self, worker: u32) -> Reply {
        publish(self.alloc, &mut self.staff, worker)
    }

    fn sweep(&mut self, shelf: u32, tick: u64) -> Result<u32, Reply> {
        sweep(self.alloc, &mut self.staff, shelf, tick)
    }

    fn compact(&mut self, shelf: u32) -> Result<u64, Reply> {
        compact(self.alloc, &mut self.staff, shelf)
    }

    fn crash(&mut self, devices: &mut R, shelf: u32) -> Result<u32, Reopen> {
        crash(
            self.alloc,
            &self.setup,
            self.directory,
            &mut self.staff,
            devices,
            shelf,
        )
    }

    fn edit(&mut self, name: &[u8], text: &[u8]) -> Result<bool, AllocError> {
        match edited(self.alloc, &self.setup, name, text)? {
            Some(setup) => {
                self.setup = setup;
                Ok(true)
            }
            None => Ok(false),
        }
    }
}
