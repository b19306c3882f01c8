ghost use Rattle.std.specs.Prelude.{◌≡◌};
ghost use Rattle.instance_book.specs.Places.{PutsPage, PutsShown, HasSamePages};
ghost use Rattle.instance_book.specs.Changes.{Becomes, CanShow, left_with, ended_with, shown_with, revoked_with};

use crate::in_order::InOrder;
use crate::instance::KeptInstance;
use crate::numbered::Numbered;
use crate::page::KeptPage;
use instance_cells::Cells;
use transactions::Closed;

/// What a segment leaves of its instance.
#[derive(Drop)]
pub struct After {
    pub cells: Cells,
    /// The closed transactions, where there are more than before.
    pub closed: Option<Closed>,
}

/// What a segment that showed a page makes of its instance.
#[derive(Drop)]
pub struct Show {
    pub page: Numbered<KeptPage>,
    /// The pages that are revoked, where the page forwards.
    pub revoked: Option<InOrder<()>>,
    pub after: After,
}

impl KeptInstance {
    // The cells and the closed transactions after a segment.
    fn leave(&mut self, after: After)
        ensures instance { Becomes (left_with after) self.old self.new }
        ensures script { self.new.script ≡ self.old.script }
        ensures pages { self.new.pages ≡ self.old.pages }
    {
        self.cells = after.cells;
        if let Some(closed) = after.closed {
            self.closed = closed;
        }
    }

    /// The instance after a segment of this number that answered this page and ended.
    pub fn end(&mut self, page: u64, number: u64, after: After)
        ensures instance { Becomes (ended_with page number after) self.old self.new }
        ensures script { self.new.script ≡ self.old.script }
        ensures pages { HasSamePages self.old.pages self.new.pages }
    {
        self.leave(after);
        self.pages.answer(page, number);
    }

    // The instance where these pages are revoked, if the page forwards.
    fn revoke(&mut self, revoked: Option<InOrder<()>>)
        ensures instance { Becomes (revoked_with revoked) self.old self.new }
        ensures script { self.new.script ≡ self.old.script }
        ensures pages { self.new.pages ≡ self.old.pages }
    {
        if let Some(revoked) = revoked {
            self.revoked = revoked;
        }
    }

    /// The instance after a segment that showed a page, for which these went.
    pub fn show(&mut self, show: Show, gone: &[u64])
        requires { CanShow show gone.now self.old }
        ensures instance { Becomes (shown_with show gone.now) self.old self.new }
        ensures script { self.new.script ≡ self.old.script }
        ensures pages { PutsPage show.page self.old.pages self.new.pages }
        ensures shown { PutsShown show.page self.old.pages self.new.pages }
    {
        let Show {
            page,
            revoked,
            after,
        } = show;
        self.leave(after);
        self.revoke(revoked);
        self.pages.show(page, gone);
    }
}
