ghost use Rattle.std.specs.Prelude.{IfOk};
ghost use Rattle.book_visits.specs.Copies.{IsSameIf, IsSame};

use instance_book::Change;
use script_value::Reply;
use std::alloc::{AllocError, Global};

/// A visit whose reply is made and, if it changes the book, its change, for which there is room.
#[derive(Drop)]
pub struct Prepared {
    pub reply: Reply,
    /// One more than its number, or 0 where the book stays.
    pub(crate) logged: u64,
    pub change: Option<Change>,
}

// A copy of a change, where there is one.
fn clone_change(alloc: Global, change: &Option<Change>) -> Result<Option<Change>, AllocError>
    ensures { IfOk result (IsSameIf change.now) }
{
    let Some(change) = change else {
        return Ok(None);
    };
    let copy = change.try_clone(alloc)?;
    Ok(Some(copy))
}

impl Prepared {
    /// A copy, equal to its source: where there is room for the one, there is for the other.
    pub fn try_clone(&self, alloc: Global) -> Result<Prepared, AllocError>
        ensures { IfOk result (IsSame self.now) }
    {
        let reply = self.reply.try_clone(alloc)?;
        let change = clone_change(alloc, &self.change)?;
        Ok(Prepared {
            reply,
            logged: self.logged,
            change,
        })
    }
}
