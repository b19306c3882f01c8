ghost use Rattle.std.specs.Prelude.{◌≡◌};
ghost use Rattle.page_follower.specs.declared.fault.FeedFault.TheVariants as fault;

use shelf::Failed;
use std::alloc::{AllocError, AllocFailed};
use thiserror::Error;

/// Why a record of a feed was not read.
#[derive(Clone, Copy, Debug, PartialEq, Eq, Error)]
pub enum FeedFault {
    /// The first bytes are those of no feed.
    #[error("this is no feed")]
    Head,
    /// The input ended inside the head, or inside the record at this place.
    #[error("the feed is cut at {place}")]
    Cut { place: u64 },
    /// The input has more bytes than a feed may have.
    #[error("the feed is too long")]
    Long,
    /// A read failed.
    #[error("a read failed")]
    Failed,
    /// Memory ran out.
    #[error("memory ran out")]
    Memory,
}

impl From<Failed> for FeedFault {
    ghost from_gives = { λ _ given. given ≡ fault.Failed };

    fn from(_: Failed) -> Self {
        FeedFault::Failed
    }
}

impl From<AllocError> for FeedFault {
    ghost from_gives = { λ _ given. given ≡ fault.Memory };

    fn from(_: AllocError) -> Self {
        FeedFault::Memory
    }
}

impl<T: Drop> From<AllocFailed<T>> for FeedFault {
    ghost from_gives = { λ _ given. given ≡ fault.Memory };

    fn from(_: AllocFailed<T>) -> Self {
        FeedFault::Memory
    }
}

/// How following a feed ended.
#[derive(Clone, Copy, Debug, PartialEq, Eq)]
pub enum FollowEnd {
    /// Each record of the feed is held.
    Held,
    /// The journal was not begun by a follower, or it was promoted.
    Promoted,
    /// The feed was not read on, for this reason.
    Feed(FeedFault),
    /// The record at this place of the feed differs from the one that is held.
    Other { place: u64 },
    /// The record at this place of the feed cannot stand after those that are held.
    Record { place: u64 },
    /// The journal has no room: with the next record it would have so many bytes.
    Full { len: u64 },
    /// A call of the disk failed.
    DiskFault,
    /// A write failed.
    Unwritten,
    /// Memory ran out.
    Memory,
}
