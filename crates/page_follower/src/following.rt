ghost use Rattle.std.specs.Prelude.{◌≡◌, ◌≤◌, ◌<◌, None, Some, false, true, IsTrue};
ghost use Rattle.shelf.specs.Views.{follows_in};
ghost use Rattle.shelf.specs.Following.{CanBeFed, IsInOrderIfFed, IsReadable};
ghost use Rattle.page_follower.specs.Calls.{FailsFeeding, FailsFor, FailsGoingOn, FailsIfFed, FeedsAll, FeedsNext, FeedsRest, FollowsIfFed, FollowsOn, StaysUnfed};
ghost use Rattle.page_follower.specs.Comparing.{HoldsTheSame, progress};
ghost use Rattle.page_follower.specs.Ends.{end_for};
ghost use Rattle.page_follower.specs.Held.{Begins};
ghost use Rattle.page_follower.specs.Keeping.{IsBookOfHeld, IsKept};

use crate::comparer::Comparer;
use crate::fault::FollowEnd;
use crate::reader::FeedReader;
use shelf::{AdoptFault, Disk, Shelf, Sink, Source};
use std::alloc::Global;

// How following ends where a shelf is not fed the record at this place.
fn end_for(fault: AdoptFault, place: u64) -> FollowEnd
    ensures { result ≡ end_for fault place }
{
    match fault {
        AdoptFault::Leader => FollowEnd::Promoted,
        AdoptFault::Down(_) | AdoptFault::DiskFault(_) => FollowEnd::DiskFault,
        AdoptFault::Outside => FollowEnd::Record { place },
        AdoptFault::Full { len } => FollowEnd::Full { len },
        AdoptFault::Memory => FollowEnd::Memory,
    }
}

impl<'a, S: Source, O: Sink> Comparer<'a, S, O> {
    /// Reads the head of a feed. No record was compared yet.
    pub(crate) fn begin(source: &'a mut S, sink: &'a mut O) -> Comparer<'a, S, O>
        ensures source { result.source.ghost_name ≡ source.entry.ghost_name }
        ensures sink { result.sink.ghost_name ≡ sink.entry.ghost_name }
        ensures begins { Begins (S.view source.old) (O.view sink.old)
            (progress S.view O.view result) result.ending }
        ensures acks { result.acks ≡ 0 }
        ensures later { (S.view source.old).faults ≤ (S.view result.source.now).faults }
    {
        let mut reader = FeedReader::new();
        let ending = match reader.head(source) {
            Ok(()) => None,
            Err(fault) => Some(FollowEnd::Feed(fault)),
        };
        Comparer {
            reader,
            source,
            sink,
            acks: 0,
            ending,
        }
    }
}

impl<S: Source, O: Sink> Comparer<'_, S, O> {
    // Feeds the shelf the next record of the feed, and acknowledges it.
    fn adopt_next<D: Disk, N>(&mut self, alloc: Global, shelf: &mut Shelf<D, N>)
        requires room { self.old.acks ≤ self.old.reader.place }
        requires goes_on { self.old.ending ≡ None }
        requires can { CanBeFed shelf.old }
        requires in_order { IsInOrderIfFed D.view D.tells shelf.old }
        ensures same { HoldsTheSame self.old self.new }
        ensures adopts { IsTrue D.tells →
            FeedsNext S.view O.view D.view self.old shelf.old self.new shelf.new }
        ensures causes { FailsFeeding S.view O.view D.view
            self.old shelf.old self.new shelf.new self.new.ending }
        ensures kept { IsKept shelf.old shelf.new self.new.ending }
        ensures in_order { IsInOrderIfFed D.view D.tells shelf.new }
        ensures nearer { self.new.ending ≡ None → self.old.reader.place < self.new.reader.place }
        ensures room { self.new.ending ≡ None → self.new.acks ≤ self.new.reader.place }
    {
        let place = self.reader.place();
        match self.reader.next(alloc, self.source) {
            Ok(Some(body)) => match shelf.adopt(alloc, &body) {
                Ok(()) => self.acknowledge(),
                Err(fault) => self.ending = Some(end_for(fault, place)),
            },
            Ok(None) => self.ending = Some(FollowEnd::Held),
            Err(fault) => self.ending = Some(FollowEnd::Feed(fault)),
        }
    }

    // Feeds the shelf the records that are left of the feed.
    fn adopt_all<D: Disk, N>(&mut self, alloc: Global, shelf: &mut Shelf<D, N>) -> FollowEnd
        requires room { self.old.ending ≡ None → self.old.acks ≤ self.old.reader.place }
        requires can { self.old.ending ≡ None → CanBeFed shelf.old }
        requires in_order { IsInOrderIfFed D.view D.tells shelf.old }
        ensures same { HoldsTheSame self.old self.new }
        ensures ending { self.new.ending ≡ Some result }
        ensures ended { (self.old.ending ≡ None → ⊥) →
            (self.new ≡ self.old) × (shelf.new ≡ shelf.old) }
        ensures adopts { IsTrue D.tells →
            FeedsRest S.view O.view D.view self.old shelf.old self.new shelf.new }
        ensures causes { FailsGoingOn S.view O.view D.view
            self.old shelf.old self.new shelf.new (Some result) }
        ensures kept { self.old.ending ≡ None → IsKept shelf.old shelf.new (Some result) }
        ensures in_order { IsInOrderIfFed D.view D.tells shelf.new }
    {
        'records: loop {
            match self.ending {
                Some(end) => return end,
                None => self.adopt_next(alloc, shelf),
            }
        }
    }

    // Compares the records that the shelf has with those of the feed, and feeds it the others.
    fn feed<D: Disk, N>(&mut self, alloc: Global, shelf: &mut Shelf<D, N>) -> FollowEnd
        requires starts { self.old.ending ≡ None }
        requires acks { self.old.acks ≡ 0 }
        requires readable { IsReadable D.view D.tells shelf.old }
        requires can { CanBeFed shelf.old }
        requires in_order { IsInOrderIfFed D.view D.tells shelf.old }
        ensures same { HoldsTheSame self.old self.new }
        ensures feeds { IsTrue D.tells →
            FeedsAll S.view O.view D.view self.old shelf.old self.new shelf.new result }
        ensures causes { FailsFeeding S.view O.view D.view
            self.old shelf.old self.new shelf.new (Some result) }
        ensures kept { IsKept shelf.old shelf.new (Some result) }
        ensures in_order { IsInOrderIfFed D.view D.tells shelf.new }
    {
        match shelf.for_each(self) {
            Ok(()) => self.adopt_all(alloc, shelf),
            Err(_) => FollowEnd::DiskFault,
        }
    }
}

// Lets a shelf follow a feed that follows another one's journal.
fn follow_on<D: Disk, N, S: Source, O: Sink>(
    alloc: Global,
    shelf: &mut Shelf<D, N>,
    source: &mut S,
    sink: &mut O,
) -> FollowEnd
    requires readable { IsReadable D.view D.tells shelf.old }
    requires can { CanBeFed shelf.old }
    requires in_order { IsInOrderIfFed D.view D.tells shelf.old }
    ensures follows { FollowsOn D.Disk S.view O.view
        source.old sink.old shelf.old source.new sink.new shelf.new result }
    ensures causes { FailsFor S.view O.view D.view
        source.old sink.old shelf.old source.new sink.new shelf.new result }
    ensures kept { IsKept shelf.old shelf.new (Some result) }
    ensures in_order { IsInOrderIfFed D.view D.tells shelf.new }
{
    let mut comparer = Comparer::begin(source, sink);
    match comparer.ending {
        Some(end) => end,
        None => comparer.feed(alloc, shelf),
    }
}

/// Lets a shelf follow a feed: the records that it has are compared with those of the feed, in order, and it is fed the others. Each record
/// is acknowledged by a line of its own, once it is held. No record is held twice in memory, and none is read before the one in front of it is
/// acknowledged.
pub fn follow<D: Disk, N, S: Source, O: Sink>(
    alloc: Global,
    shelf: &mut Shelf<D, N>,
    source: &mut S,
    sink: &mut O,
) -> FollowEnd
    requires readable { IsReadable D.view D.tells shelf.old }
    requires can { follows_in shelf.old ≡ true → CanBeFed shelf.old }
    requires in_order { IsInOrderIfFed D.view D.tells shelf.old }
    ensures leads { follows_in shelf.old ≡ false → result ≡ FollowEnd.Promoted }
    ensures same { StaysUnfed source.old sink.old shelf.old source.new sink.new shelf.new }
    ensures follows { FollowsIfFed D.Disk S.view O.view
        source.old sink.old shelf.old source.new sink.new shelf.new result }
    // So it is on any disk, also on one that does not tell its bytes.
    ensures causes { FailsIfFed S.view O.view D.view
        source.old sink.old shelf.old source.new sink.new shelf.new result }
    ensures kept { follows_in shelf.old ≡ true → IsKept shelf.old shelf.new (Some result) }
    ensures book { IsTrue D.tells → IsBookOfHeld D.view shelf.new }
    ensures in_order { IsInOrderIfFed D.view D.tells shelf.new }
{
    if shelf.follows() {
        follow_on(alloc, shelf, source, sink)
    } else {
        FollowEnd::Promoted
    }
}
