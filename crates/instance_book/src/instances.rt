ghost use Rattle.std.specs.Prelude.{◌≡◌, filter, OnOk};
ghost use Rattle.std.specs.Option.{option_copied};
ghost use Rattle.journal_records.specs.ReplaySpec.Book.{is_live};
ghost use Rattle.journal_records.specs.ReplaySpec.Change.{mend, without};
ghost use Rattle.instance_book.specs.Lists.{HasRoom, thing_at};
ghost use Rattle.instance_book.specs.Views.{HasRoomAt};
ghost use Rattle.instance_book.specs.Places.{StayKept, StayKeptWith, StayPlaced, StayPlacedWith};
ghost use Rattle.instance_book.specs.Makes.{AllBecome, PutsInstance, IsInstanceAt, IsPlacedAmong, IsKeptAmong, StayKeptNext};
ghost use Rattle.instance_book.specs.Changes.{CanShowAt, ended_with, shown_with};

use crate::after::{After, Show};
use crate::in_order::InOrder;
use crate::instance::KeptInstance;
use crate::numbered::Numbered;
use std::alloc::AllocError;

impl InOrder<KeptInstance> {
    /// The instance of a number.
    pub fn instance(&self, number: u64) -> Option<&Numbered<KeptInstance>>
        ensures thing { option_copied result ≡ thing_at number self.now }
        ensures instance { IsInstanceAt number self.now result }
        ensures placed { IsPlacedAmong self.now result }
        ensures states { IsKeptAmong self.now result }
    {
        self.get(number)
    }

    /// Makes room for one page more in the instance of a number; the instances stay.
    pub fn make_room_in(&mut self, number: u64) -> Result<(), AllocError>
        ensures instances { AllBecome (λ is. is) self.old self.new }
        ensures room { OnOk result (HasRoomAt number self.new) }
        ensures placed { StayPlaced self.old self.new }
        ensures states { StayKept self.old self.new }
    {
        match self.place(number) {
            Some(place) => self.things[place].item.pages.make_room(),
            None => Ok(()),
        }
    }

    /// One instance more, in the place of the one of its number; it takes no memory.
    pub fn put_instance(&mut self, instance: Numbered<KeptInstance>)
        requires { HasRoom self.old }
        ensures instances { PutsInstance instance self.old self.new }
        ensures placed { StayPlacedWith instance self.old self.new }
        ensures states { StayKeptWith instance self.old self.new }
    {
        self.put(instance);
    }

    /// All instances but the one of a number.
    pub fn free(&mut self, number: u64)
        ensures instances { AllBecome (without number) self.old self.new }
        ensures placed { StayPlaced self.old self.new }
        ensures states { StayKept self.old self.new }
    {
        self.remove(number);
    }

    /// The instances with a page that can be answered still at this tick.
    pub fn keep_live(&mut self, tick: u64)
        ensures instances { AllBecome (filter (is_live tick)) self.old self.new }
        ensures placed { StayPlaced self.old self.new }
        ensures states { StayKept self.old self.new }
    {
        self.things
            .retain(|instance| !instance.item.pages.all_over(tick));
    }

    /// The instances where that of a number is after a segment of another number that answered this page and ended.
    pub fn end(&mut self, instance: u64, page: u64, number: u64, after: After)
        ensures instances { AllBecome
            (mend instance (ended_with page number after)) self.old self.new }
        ensures placed { StayPlaced self.old self.new }
        ensures states { StayKept self.old self.new }
    {
        match self.place(instance) {
            Some(place) => self.things[place].item.end(page, number, after),
            None => (),
        }
    }

    /// The instances where that of a number is after a segment that showed a page, for which these went.
    pub fn show(&mut self, instance: u64, show: Show, gone: &[u64])
        requires { CanShowAt instance show gone.now self.old }
        ensures instances { AllBecome
            (mend instance (shown_with show gone.now)) self.old self.new }
        ensures placed { StayPlaced self.old self.new }
        ensures states { StayKeptNext instance show.page self.old self.new }
    {
        match self.place(instance) {
            Some(place) => self.things[place].item.show(show, gone),
            None => (),
        }
    }
}
