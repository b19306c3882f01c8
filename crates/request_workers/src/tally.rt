ghost use Rattle.std.specs.Prelude.{◌≡◌, ◌≤◌, ◌<◌, ◌+◌};
ghost use Rattle.request_workers.specs.Counting as spec;
ghost use Rattle.request_workers.specs.Tallies.{count_of, served_count, IsBelow};

use crate::link::{LinkEnd, Links};

// More than all links of a porch can come to.
const COUNT_LIMIT: u64 = 1 << 62;

/// Why a worker ended.
#[derive(Clone, Copy, Debug, PartialEq, Eq)]
pub enum WorkEnd {
    /// No more links come.
    Done,
    /// The porch failed.
    Failed,
}

/// What a worker counted.
#[derive(Clone, Copy, Debug, PartialEq, Eq)]
pub struct Tally {
    /// Visits that were answered with a page.
    pub pages: u64,
    /// All other visits.
    pub refused: u64,
    /// Links on which reading or writing failed.
    pub failed: u64,
    /// Links that were dropped for want of memory.
    pub dropped: u64,
    /// Why the worker ended.
    pub end: WorkEnd,
}

impl Tally {
    /// The tally of a worker that has counted nothing yet.
    pub fn nothing() -> Tally
        ensures count { count_of result ≡ spec.nothing }
        ensures end { result.end ≡ WorkEnd.Done }
    {
        Tally {
            pages: 0,
            refused: 0,
            failed: 0,
            dropped: 0,
            end: WorkEnd::Done,
        }
    }

    // One link more, which was served so.
    pub(crate) fn count(&mut self, links: &Links)
        requires below { IsBelow (count_of self.old) COUNT_LIMIT }
        requires few { links.now.pages + links.now.refused ≤ 1000 }
        ensures count { count_of self.new ≡ spec.both (count_of self.old) (served_count links.now) }
        ensures end { self.new.end ≡ self.old.end }
    {
        self.pages += links.pages;
        self.refused += links.refused;
        match links.end {
            LinkEnd::Closed | LinkEnd::Refused(_) | LinkEnd::Idle => {}
            LinkEnd::ReadFault | LinkEnd::WriteFault => self.failed += 1,
            LinkEnd::Memory => self.dropped += 1,
        }
    }

    // This tally with another end.
    pub(crate) fn ended(self, end: WorkEnd) -> Tally
        ensures count { count_of result ≡ count_of self }
        ensures end { result.end ≡ end }
    {
        Tally { end, ..self }
    }
}
