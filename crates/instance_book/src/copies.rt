ghost use Rattle.std.specs.Prelude.{◌≡◌, IfOk};
ghost use Rattle.journal_records.specs.Views.{ending_of, finish_of, IsSamePage};
ghost use Rattle.instance_book.specs.Lists.{HasRoom};
ghost use Rattle.instance_book.specs.Views.{page_of};
ghost use Rattle.instance_book.specs.Places.{kept_at, StayPlaced, StayKept};
ghost use Rattle.instance_book.specs.Makes.{AllBecome, StaysSame, KeepsPlaces, KeepsStates};
ghost use Rattle.instance_book.specs.Copies.{IsSamePages, IsSameInstance, BeginsAlike, IsSameShow, IsSameExtension, IsSameChange, TellsAlike, BeginsOverSame};

use crate::after::{After, Show};
use crate::book::Book;
use crate::change::{Change, Ending, Extension, Finish, Opening};
use crate::in_order::InOrder;
use crate::instance::KeptInstance;
use crate::numbered::Numbered;
use crate::page::KeptPage;
use std::alloc::{AllocError, Global};

impl InOrder<KeptPage> {
    /// A copy, equal to its source.
    pub fn try_clone(&self, alloc: Global) -> Result<InOrder<KeptPage>, AllocError>
        ensures { IfOk result (IsSamePages self.now) }
    {
        let mut things = Vec::new(alloc);
        for page in &self.things {
            things.push(page.try_clone(alloc)?)?;
        }
        Ok(InOrder { things })
    }
}

impl KeptInstance {
    /// A copy, equal to its source.
    pub fn try_clone(&self, alloc: Global) -> Result<KeptInstance, AllocError>
        ensures instance { IfOk result (IsSameInstance self.now) }
        ensures script { IfOk result (λ copy. copy.script ≡ self.now.script) }
        ensures pages { IfOk result (λ copy. IsSamePages self.now.pages copy.pages) }
    {
        Ok(KeptInstance {
            script: self.script,
            cells: self.cells.try_clone(alloc)?,
            closed: self.closed.try_clone(alloc)?,
            revoked: self.revoked.numbers(alloc)?,
            pages: self.pages.try_clone(alloc)?,
        })
    }

    // A copy, with room for one page more.
    fn clone_with_room(&self, alloc: Global) -> Result<KeptInstance, AllocError>
        ensures instance { IfOk result (IsSameInstance self.now) }
        ensures script { IfOk result (λ copy. copy.script ≡ self.now.script) }
        ensures pages { IfOk result (λ copy. IsSamePages self.now.pages copy.pages) }
        ensures room { IfOk result (λ copy. HasRoom copy.pages) }
    {
        let mut copy = self.try_clone(alloc)?;
        copy.pages.make_room()?;
        Ok(copy)
    }
}

impl InOrder<KeptInstance> {
    /// A copy, equal to its source.
    pub fn try_clone(&self, alloc: Global) -> Result<InOrder<KeptInstance>, AllocError>
        ensures instances { IfOk result (AllBecome (λ is. is) self.now) }
        ensures placed { IfOk result (StayPlaced self.now) }
        ensures states { IfOk result (StayKept self.now) }
    {
        let mut things = Vec::new(alloc);
        for instance in &self.things {
            things.push(Numbered {
                number: instance.number,
                item: instance.item.try_clone(alloc)?,
            })?;
        }
        Ok(InOrder { things })
    }
}

impl After {
    /// A copy, equal to its source.
    pub fn try_clone(&self, alloc: Global) -> Result<After, AllocError>
        ensures { IfOk result (λ copy. copy ≡ self.now) }
    {
        let closed = match &self.closed {
            Some(closed) => Some(closed.try_clone(alloc)?),
            None => None,
        };
        Ok(After {
            cells: self.cells.try_clone(alloc)?,
            closed,
        })
    }
}

impl Show {
    /// A copy, equal to its source.
    pub fn try_clone(&self, alloc: Global) -> Result<Show, AllocError>
        ensures { IfOk result (IsSameShow self.now) }
    {
        let revoked = match &self.revoked {
            Some(revoked) => Some(revoked.numbers(alloc)?),
            None => None,
        };
        Ok(Show {
            page: self.page.try_clone(alloc)?,
            revoked,
            after: self.after.try_clone(alloc)?,
        })
    }
}

impl Opening {
    /// A copy, equal to its source, with room for its page.
    pub fn try_clone(&self, alloc: Global) -> Result<Opening, AllocError>
        ensures told { IfOk result (λ copy. IsSamePage self.now.record copy.record) }
        ensures page { IfOk result (λ copy. page_of copy.page ≡ page_of self.now.page) }
        ensures kept { IfOk result (λ copy. kept_at copy.page ≡ kept_at self.now.page) }
        ensures state { IfOk result (TellsAlike self.now) }
        ensures script { IfOk result (λ copy. copy.instance.script ≡ self.now.instance.script) }
        ensures pages { IfOk result (BeginsOverSame self.now) }
        ensures begun { IfOk result (BeginsAlike self.now) }
        ensures room { IfOk result (λ copy. HasRoom copy.instance.pages) }
    {
        let record = self.record.try_clone(alloc)?;
        let state = self.state.try_clone(alloc)?;
        let page = self.page.try_clone(alloc)?;
        let instance = self.instance.clone_with_room(alloc)?;
        Ok(Opening {
            record,
            page,
            state,
            instance,
        })
    }
}

impl Extension {
    /// A copy, equal to its source.
    pub fn try_clone(&self, alloc: Global) -> Result<Extension, AllocError>
        ensures { IfOk result (IsSameExtension self.now) }
    {
        let record = self.record.try_clone(alloc)?;
        Ok(Extension {
            instance: self.instance,
            record,
            state: self.state.try_clone(alloc)?,
            show: self.show.try_clone(alloc)?,
        })
    }
}

impl Ending {
    /// A copy, equal to its source.
    pub fn try_clone(&self, alloc: Global) -> Result<Ending, AllocError>
        ensures told { IfOk result (λ copy. ending_of copy.record ≡ ending_of self.now.record) }
        ensures inside { IfOk result (λ copy. copy.inside.items ≡ self.now.inside.items) }
        ensures after { IfOk result (λ copy. copy.after ≡ self.now.after) }
    {
        let record = self.record.try_clone(alloc)?;
        Ok(Ending {
            record,
            inside: self.inside.as_slice().to_vec(alloc)?,
            after: self.after.try_clone(alloc)?,
        })
    }
}

impl Finish {
    /// A copy, equal to its source.
    pub fn try_clone(&self, alloc: Global) -> Result<Finish, AllocError>
        ensures told { IfOk result (λ copy. finish_of copy.record ≡ finish_of self.now.record) }
        ensures inside { IfOk result (λ copy. copy.inside.items ≡ self.now.inside.items) }
    {
        let record = self.record.try_clone(alloc)?;
        Ok(Finish {
            record,
            inside: self.inside.as_slice().to_vec(alloc)?,
        })
    }
}

impl Change {
    /// A copy, equal to its source: where there is room for the one, there is for the other.
    pub fn try_clone(&self, alloc: Global) -> Result<Change, AllocError>
        ensures { IfOk result (IsSameChange self.now) }
    {
        match self {
            Change::Opens(opening) => {
                let copy = opening.try_clone(alloc)?;
                Ok(Change::Opens(copy))
            }
            Change::Extends(extension) => {
                let copy = extension.try_clone(alloc)?;
                Ok(Change::Extends(copy))
            }
            Change::Ends(ending) => Ok(Change::Ends(ending.try_clone(alloc)?)),
            Change::Finishes(finish) => Ok(Change::Finishes(finish.try_clone(alloc)?)),
        }
    }
}

impl Book {
    /// A copy, equal to its source.
    pub fn try_clone(&self, alloc: Global) -> Result<Book, AllocError>
        ensures book { IfOk result (StaysSame self.now) }
        ensures placed { IfOk result (KeepsPlaces self.now) }
        ensures states { IfOk result (KeepsStates self.now) }
    {
        let instances = self.instances.try_clone(alloc)?;
        let out = self.out.as_slice().to_vec(alloc)?;
        Ok(Book {
            shelf: self.shelf,
            clock: self.clock,
            drawn: self.drawn,
            logged: self.logged,
            out,
            instances,
        })
    }
}
