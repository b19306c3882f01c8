//! The feed of a shelf's journal: a leader writes it, and a follower holds each of its records before it acknowledges it.
#![tactic(auto)]

ghost use Rattle.std.specs.Prelude.{IsTrue};
ghost use Rattle.page_follower.specs.Computed.{FollowingIsComputed};
ghost use Rattle.page_follower.specs.Laws.{AcknowledgedRecordsAreHeld, CutFeedsHoldTheFirst, FeedsHoldTheirRecords, FirstRecordsAreFound};

mod comparer;
mod exporting;
mod fault;
mod following;
mod reader;
mod sender;
mod writing;

pub use comparer::Comparer;
pub use exporting::{ExportFault, export};
pub use fault::{FeedFault, FollowEnd};
pub use following::follow;
pub use reader::{Compared, FeedReader};
pub use sender::Sender;
pub use shelf as shelves;
use shelf::Disk;
pub use writing::{write_ack, write_head, write_record};

/// The first bytes of a feed: its magic word and the number of its format.
pub const FEED_HEAD: [u8; 8] = [75, 83, 70, 69, 69, 68, 0, 6];

/// How many bytes a feed may have.
pub const FEED_LIMIT: u64 = 1 << 30;

/// A law: a feed holds the records that were put into it, and no others.
pub fn feeds_hold_their_records()
    ensures { FeedsHoldTheirRecords }
{}

/// A law: a feed that ends inside a record holds those before it, and is cut where that one begins.
pub fn cut_feeds_hold_the_first()
    ensures { CutFeedsHoldTheFirst }
{}

/// A law: from the moment on at which records were acknowledged, a crash leaves them after those that were held before, and after them the first of
/// those that came later.
pub fn acknowledged_records_are_held<D: Disk>()
    ensures { IsTrue D.tells → AcknowledgedRecordsAreHeld D.view }
{}

/// A law: bytes that hold the first of some records are read as these.
pub fn first_records_are_found()
    ensures { FirstRecordsAreFound }
{}

/// A law: what a follower did with a feed is what the definition of following computes from the feed's bytes.
pub fn following_is_computed()
    ensures { FollowingIsComputed }
{}
