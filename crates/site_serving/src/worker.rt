use request_workers::Tally;
use std::alloc::{AllocError, Global};

/// A worker: the pass that it visits through, the porch that gives it its links, and what it has counted.
pub struct Worker<S, P> {
    pub pass: S,
    pub porch: P,
    pub tally: Tally,
}

/// What workers take of memory, beside their passes and porches.
pub struct Room<S, P> {
    pub(crate) workers: Vec<Worker<S, P>>,
    pub(crate) tallies: Vec<Tally>,
}

impl<S, P> Room<S, P> {
    ghost use Rattle.std.specs.Prelude.{◌≡◌, [], IfOk};
    ghost use Rattle.site_serving.specs.Workers.{IsRoomFor};

    /// Room for so many workers.
    pub fn new(alloc: Global, count: u32) -> Result<Room<S, P>, AllocError>
        ensures { IfOk result (IsRoomFor count) }
    {
        let tallies = Vec::with_capacity(alloc, count as usize)?;
        let workers = Vec::with_capacity(alloc, count as usize)?;
        Ok(Room { workers, tallies })
    }

    /// Gives the room back, which nobody used.
    pub fn close(self)
        requires { self.workers.items ≡ [] }
    {
        let Room {
            workers,
            tallies: _,
        } = self;
        workers.destroy_empty();
    }
}
