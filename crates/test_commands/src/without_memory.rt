//! A server that finds no memory before it serves.

use crate::outside::{Machine, NARROW, sink_of};
use crate::servings::{SERVE, TEN, source_of_script};
use crate::streets::{QUIET, Street, door_of};
use file_disk::ServedRack;
use server_command::{NoPast, command};
use std::alloc::Global;
use std::test::Fail;
use web_outside::{
    Counting, Door, DoorFault, ListDoor, ListPorch, ListSeeds, OpenGate, SeedFault, Seeds, SetClock,
};

// Seeds that find no memory for what they draw.
#[derive(Drop)]
struct CrampedSeeds;

impl Seeds<Counting> for CrampedSeeds {
    ghost use Rattle.std.specs.Prelude.{None};

    ghost view = { λ _. record { gives = λ _. None; faults = 0 } };

    fn faults(&self) -> u64 {
        0
    }

    fn draw(&mut self, _alloc: Global, _count: u32) -> Result<Vec<Counting>, SeedFault> {
        Err(SeedFault::Memory)
    }
}

// A door that finds no memory for its porches.
#[derive(Drop)]
struct CrampedDoor {
    door: ListDoor,
}

impl Door for CrampedDoor {
    ghost use Rattle.std.specs.Prelude.{◌≡◌};
    ghost use Rattle.web_outside.specs.Lists.{door_view, porch_view, SameDoor};
    ghost use Rattle.web_outside.specs.Doors.{counts_with};

    type Porch = ListPorch;

    ghost view = { λ cramped. door_view cramped.door };

    fn faults(&self) -> u64 {
        self.door.faults()
    }

    fn listen(
        &mut self,
        _alloc: Global,
        _port: u16,
        _workers: u32,
        _connections: u64,
    ) -> Result<Vec<ListPorch>, DoorFault> {
        Err(DoorFault::Memory)
    }

    fn close(&mut self, porches: Vec<ListPorch>)
        ensures closed { self.new.door.closed.items ≡ porches.items }
        ensures faults { self.new.door.faults
            ≡ counts_with porch_view porches.items self.old.door.faults }
        ensures porches { self.new.door.porches.items ≡ self.old.door.porches.items }
        ensures listens { self.new.door.listens ≡ self.old.door.listens }
        ensures rules { SameDoor self.old.door self.new.door }
    {
        self.door.close(porches);
    }
}

// A link that asks for a page.
const A_START_OF_TEN: Street = Street {
    links: &["GET /servlets/ten HTTP/1.0\r\n\r\n"],
    ..QUIET
};

// Whether serving a script through this door and from these seeds ends with status 10, and with its line alone.
fn ends_for_memory<R: Machine, D: Door<Porch = ListPorch>, S: Seeds<Counting>>(
    rt: &R,
    door: &mut D,
    seeds: &mut S,
) -> Result<bool, Fail> {
    let alloc = rt.alloc();
    let mut source = source_of_script(alloc, TEN)?;
    let mut sink = sink_of(alloc, &NARROW)?;
    let mut rack = ServedRack::new(rt, alloc);
    let status = command(
        rt,
        alloc,
        SERVE,
        &mut source,
        &mut sink,
        &mut rack,
        door,
        &SetClock::new(0),
        seeds,
        &OpenGate,
        &mut NoPast,
    );
    Ok(status == 10 && sink.bytes() == b"error 10 memory\n".as_slice())
}

#[test]
fn seeds_without_memory_end_with_10(rt: HostRuntime) -> Result<(), Fail> {
    let mut door = door_of(rt.alloc(), &A_START_OF_TEN)?;
    assert!(rt; ends_for_memory(&rt, &mut door, &mut CrampedSeeds)?);
    Ok(())
}

#[test]
fn a_door_without_memory_ends_with_10(rt: HostRuntime) -> Result<(), Fail> {
    let alloc = rt.alloc();
    let mut door = CrampedDoor {
        door: door_of(alloc, &A_START_OF_TEN)?,
    };
    let mut seeds = ListSeeds::new(Vec::new(alloc));
    assert!(rt; ends_for_memory(&rt, &mut door, &mut seeds)?);
    Ok(())
}
