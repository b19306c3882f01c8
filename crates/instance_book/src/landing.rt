ghost use Rattle.std.specs.Prelude.{◌≡◌, Some, [], ◌≤◌, ◌^◌};
ghost use Rattle.instance_book.specs.declared.change.Change.TheVariants.{Extends, Ends};
ghost use Rattle.instance_book.specs.Makes.{MakesUnder, KeepsPlaces, KeepsStates, Makes, Reopens, StaysLow, logged_to};
ghost use Rattle.instance_book.specs.Changes.{changed_by, HasRoomWith, HasRoomFor, KeepsPlacesBy, KeepsStatesBy, BeginsWith};
ghost use Rattle.instance_book.specs.Lists.{HasRoom};
ghost use Rattle.instance_book.specs.Views.{pages_of};
ghost use Rattle.instance_book.specs.Places.{PutsPage, PutsShown};

use crate::book::Book;
use crate::change::{Change, Ending, Extension, Opening};
use crate::instance::KeptInstance;
use crate::numbered::Numbered;

impl Opening {
    // The instance that begins with its page.
    fn begin(self) -> Numbered<KeptInstance>
        requires room { HasRoom self.instance.pages }
        requires empty { pages_of self.instance.pages ≡ [] }
        ensures instance { BeginsWith self result }
        ensures script { result.item.script ≡ self.instance.script }
        ensures number { result.number ≡ self.page.number }
        ensures pages { PutsPage self.page self.instance.pages result.item.pages }
        ensures shown { PutsShown self.page self.instance.pages result.item.pages }
    {
        let Opening {
            record: _,
            page,
            state: _,
            mut instance,
        } = self;
        let number = page.number;
        instance.pages.put_page(page);
        Numbered {
            number,
            item: instance,
        }
    }
}

impl Book {
    // A page more in its instance, for which others go.
    fn extend(&mut self, extension: Extension)
        requires { HasRoomWith (Extends extension) self.old }
        ensures book { MakesUnder
            (λ library. changed_by library (Some (Extends extension))) self.old self.new }
        ensures placed { KeepsPlaces self.old self.new }
        ensures states { KeepsStatesBy (Some (Extends extension)) self.old self.new }
    {
        let Extension {
            instance,
            record,
            state: _,
            show,
        } = extension;
        self.instances.show(instance, show, &record.evicted);
    }

    // An instance after a segment that ended.
    fn end(&mut self, ending: Ending)
        ensures book { MakesUnder
            (λ library. changed_by library (Some (Ends ending))) self.old self.new }
        ensures placed { KeepsPlaces self.old self.new }
        ensures states { KeepsStates self.old self.new }
    {
        let Ending {
            record,
            inside: _,
            after,
        } = ending;
        self.instances
            .end(record.instance, record.page, record.ticket, after);
    }

    /// Makes the change of a visit, if there is one, for which there is room. It takes no memory.
    pub fn change(&mut self, change: Option<Change>)
        requires { HasRoomFor change self.old }
        ensures book { MakesUnder (λ library. changed_by library change) self.old self.new }
        ensures placed { KeepsPlacesBy change self.old self.new }
        ensures states { KeepsStatesBy change self.old self.new }
    {
        let Some(change) = change else {
            return;
        };
        match change {
            Change::Opens(opening) => self.instances.put_instance(opening.begin()),
            Change::Extends(extension) => self.extend(extension),
            Change::Ends(ending) => self.end(ending),
            Change::Finishes(finish) => self.instances.free(finish.record.instance),
        }
    }

    /// Records count up to this number: numbers below it are not drawn again after a crash. It takes no memory.
    pub fn count_to(&mut self, number: u64)
        ensures book { Makes (logged_to number) self.old self.new }
        ensures placed { KeepsPlaces self.old self.new }
        ensures states { KeepsStates self.old self.new }
        ensures low { number ≤ 2 ^ 62 → StaysLow self.old self.new }
    {
        self.logged = self.logged.max(number);
    }

    /// Goes on with this number, as a file tells it that was compacted. It takes no memory.
    pub fn go_on_with(&mut self, number: u64)
        ensures book { Makes (λ b. record b { logged = number }) self.old self.new }
        ensures placed { KeepsPlaces self.old self.new }
        ensures states { KeepsStates self.old self.new }
        ensures low { number ≤ 2 ^ 62 → StaysLow self.old self.new }
    {
        self.logged = number;
    }

    /// The book as after a crash: numbers that no record has are drawn again. It takes no memory.
    pub fn reopen(&mut self)
        requires { self.old.logged ≤ 2 ^ 62 }
        ensures book { Reopens (λ b. b) self.old self.new }
        ensures placed { KeepsPlaces self.old self.new }
    {
        self.out.clear();
        self.drawn = self.logged;
    }
}
