ghost use Rattle.std.specs.Prelude.{◌≡◌, ◌<◌, ◌^◌, List, OnOk, OnErr, option_map, ◌-◌};
ghost use Rattle.script_nodes.specs.Setup.{Named};
ghost use Rattle.journal_records.specs.ReplaySpec.Book as spec;
ghost use Rattle.instance_book.specs.Makes.{count_of, Makes, StaysSame, HasPlaces, KeepsPlaces, HasItsStates, HasWhatIsGiven, KeepsStates, IsInstanceAt, IsPlacedAmong, IsKeptAmong};
ghost use Rattle.instance_book.specs.Swept.{swept, cells_at, IsEmpty};
ghost use Rattle.std.specs.Option.{option_copied};
ghost use Rattle.instance_book.specs.Lists.{thing_at};

use crate::book::Book;
use crate::in_order::InOrder;
use crate::instance::KeptInstance;
use crate::numbered::Numbered;
use instance_cells::Cells;
use std::alloc::{AllocError, Global};

impl Book {
    /// The book of a shelf with nothing in it; it takes no memory.
    pub fn empty(alloc: Global, shelf: u32) -> Book
        ensures book { IsEmpty shelf result }
        ensures placed { (all : List Named) → HasPlaces all result }
        ensures states { (all : List Named) → HasItsStates all result }
        ensures told { HasWhatIsGiven result }
    {
        Book {
            shelf,
            clock: 0,
            drawn: 0,
            logged: 0,
            out: Vec::new(alloc),
            instances: InOrder::new(alloc),
        }
    }

    /// The number of the shelf.
    pub fn shelf(&self) -> u32
        ensures { result ≡ self.now.shelf }
    {
        self.shelf
    }

    /// The clock, in seconds.
    pub fn clock(&self) -> u64
        ensures clock { result ≡ self.now.clock }
        ensures low { result < 2 ^ 62 }
    {
        self.clock
    }

    /// The number that is drawn next.
    pub fn drawn(&self) -> u64
        ensures { result ≡ self.now.drawn }
    {
        self.drawn
    }

    /// One more than the greatest number in a record.
    pub fn logged(&self) -> u64
        ensures { result ≡ self.now.logged }
    {
        self.logged
    }

    /// How many live instances there are.
    pub fn live(&self) -> u32
        ensures { result ≡ count_of self.now }
    {
        self.instances.len() as u32
    }

    /// The instance of a number, where there is a live one. It takes no memory.
    pub fn instance(&self, number: u64) -> Option<&Numbered<KeptInstance>>
        ensures thing { option_copied result ≡ thing_at number self.now.instances }
        ensures instance { IsInstanceAt number self.now.instances result }
        ensures placed { IsPlacedAmong self.now.instances result }
        ensures states { IsKeptAmong self.now.instances result }
    {
        self.instances.instance(number)
    }

    /// The present cells of an instance, where there is a live one of this number. It takes no memory.
    pub fn cells(&self, instance: u64) -> Option<&Cells>
        ensures { option_map (λ cells. cells.now) result ≡ cells_at instance self.now }
    {
        let instance = self.instances.get(instance)?;
        Some(&instance.item.cells)
    }

    /// Draws the next number, which is out from now on. Where memory runs out, nothing changes.
    pub fn draw(&mut self) -> Result<(), AllocError>
        requires { self.old.drawn < 2 ^ 62 }
        ensures drawn { OnOk result (Makes spec.draw self.old self.new) }
        ensures err { OnErr result (StaysSame self.old self.new) }
        ensures placed { KeepsPlaces self.old self.new }
        ensures states { KeepsStates self.old self.new }
    {
        let number = self.drawn;
        self.out.try_reserve(1)?;
        self.drawn += 1;
        self.out.push(number)?;
        Ok(())
    }

    /// The number is published, or given up. It takes no memory.
    pub fn spend(&mut self, number: u64)
        ensures book { Makes (spec.spend number) self.old self.new }
        ensures instances { self.new.instances ≡ self.old.instances }
        ensures placed { KeepsPlaces self.old self.new }
        ensures states { KeepsStates self.old self.new }
    {
        self.out.retain(|other| *other != number);
    }

    /// Goes on to a tick, frees each instance whose pages are all expired then or evicted, and tells how many. It takes no memory.
    pub fn free_expired(&mut self, tick: u64) -> u32
        requires later { self.old.clock < tick }
        requires low { tick < 2 ^ 62 }
        ensures book { Makes (swept tick) self.old self.new }
        ensures count { result ≡ count_of self.old - count_of self.new }
        ensures placed { KeepsPlaces self.old self.new }
        ensures states { KeepsStates self.old self.new }
    {
        let before = self.instances.len();
        self.clock = tick;
        self.instances.keep_live(tick);
        (before - self.instances.len()) as u32
    }
}
