ghost use Rattle.std.specs.Prelude.{◌≡◌};
ghost use Rattle.std.specs.List.{list_all};
ghost use Rattle.journal_records.specs.ReplaySpec.Book.{is_over};
ghost use Rattle.journal_records.specs.ReplaySpec.Marks.{use_page, go, go_all};
ghost use Rattle.instance_book.specs.Lists.{HasRoom};
ghost use Rattle.instance_book.specs.Views.{pages_of, evicted_of};
ghost use Rattle.instance_book.specs.Places.{CanTake, IsPageAt, IsShownAt, IsMarkedAt, PutsPage, PutsShown, PutsMark, ShowsPage, ChangesMarks};
ghost use Rattle.instance_book.specs.Uses.{use_if};

use crate::in_order::InOrder;
use crate::numbered::Numbered;
use crate::page::KeptPage;

impl InOrder<KeptPage> {
    /// The page of a number.
    pub fn page(&self, number: u64) -> Option<&Numbered<KeptPage>>
        ensures page { IsPageAt number self.now result }
        ensures shown { IsShownAt number self.now result }
        ensures marked { IsMarkedAt number self.now result }
    {
        self.get(number)
    }

    /// One page more, in the place of the one of its number; it takes no memory.
    pub fn put_page(&mut self, page: Numbered<KeptPage>)
        requires { HasRoom self.old }
        ensures pages { PutsPage page self.old self.new }
        ensures shown { PutsShown page self.old self.new }
        ensures mark { PutsMark page self.old self.new }
    {
        self.put(page);
    }

    /// A segment of this number answered a page.
    pub fn answer(&mut self, page: u64, number: u64)
        ensures { ChangesMarks (use_page page number) self.old self.new }
    {
        match self.place(page) {
            Some(place) => self.things[place].item.answer(number),
            None => (),
        }
    }

    // A segment of this number answered a page, if it answered one.
    fn answer_if(&mut self, page: Option<u64>, number: u64)
        ensures { ChangesMarks (use_if page number) self.old self.new }
    {
        if let Some(page) = page {
            self.answer(page, number);
        }
    }

    // A page goes for the one of this number.
    fn evict(&mut self, page: u64, number: u64)
        ensures { ChangesMarks (go number page) self.old self.new }
    {
        match self.place(page) {
            Some(place) => self.things[place].item.evict(number),
            None => (),
        }
    }

    // These pages go for the one of this number.
    fn evict_all(&mut self, pages: &[u64], number: u64)
        ensures { ChangesMarks (go_all number pages.now) self.old self.new }
    {
        for page in pages {
            self.evict(*page, number);
        }
    }

    /// One page more, which may answer one of them, and for which these go; it takes no memory.
    pub fn show(&mut self, page: Numbered<KeptPage>, gone: &[u64])
        requires { CanTake page gone.now self.old }
        ensures { ShowsPage page gone.now self.old self.new }
    {
        self.answer_if(page.item.parent, page.number);
        self.evict_all(gone, page.number);
        self.put_page(page);
    }

    /// Whether no page can be answered at this tick: each is expired then, or evicted.
    pub fn all_over(&self, tick: u64) -> bool
        ensures { result ≡ list_all (is_over tick (evicted_of self.now)) (pages_of self.now) }
    {
        for page in &self.things {
            if !page.item.is_over(tick) {
                return false;
            }
        }
        true
    }
}
