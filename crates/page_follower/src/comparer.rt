ghost use Rattle.std.specs.Prelude.{◌≡◌, ◌≤◌, ◌<◌, ◌+◌, ◌^◌, None};
ghost use Rattle.page_follower.specs.Calls.{ComparesHeld};
ghost use Rattle.page_follower.specs.Comparing.{HoldsTheSame, Tells, progress};

use crate::fault::FollowEnd;
use crate::reader::{Compared, FeedReader};
use crate::writing::write_ack;
use shelf::{Sink, Source, Take, is_role};

/// Compares the records that a follower holds with a feed, one by one, and acknowledges each that is in both.
#[derive(Drop)]
pub struct Comparer<'a, S, O> {
    pub(crate) reader: FeedReader,
    pub(crate) source: &'a mut S,
    pub(crate) sink: &'a mut O,
    // How many records were acknowledged.
    pub(crate) acks: u64,
    // How following ended, if it did.
    pub(crate) ending: Option<FollowEnd>,
}

impl<S: Source, O: Sink> Comparer<'_, S, O> {
    // Acknowledges a record that is held.
    pub(crate) fn acknowledge(&mut self)
        requires room { self.old.acks < 2 ^ 63 }
        requires goes_on { self.old.ending ≡ None }
        ensures same { HoldsTheSame self.old self.new }
        ensures tells { Tells (progress S.view O.view self.old) (progress S.view O.view self.new)
            self.new.ending }
    {
        match write_ack(self.sink, self.acks + 1) {
            Ok(()) => self.acks += 1,
            Err(_) => self.ending = Some(FollowEnd::Unwritten),
        }
    }

    // Compares the next record of the feed with one that is held.
    fn compare(&mut self, body: &[u8])
        requires room { self.old.acks < 2 ^ 63 }
        requires goes_on { self.old.ending ≡ None }
        ensures same { HoldsTheSame self.old self.new }
        ensures compares { ComparesHeld S.view O.view self.old body.now self.new }
        ensures acks { self.new.acks ≤ self.old.acks + 1 }
    {
        let place = self.reader.place();
        match self.reader.compare(self.source, body) {
            Ok(Compared::Same) => self.acknowledge(),
            Ok(Compared::Other) => self.ending = Some(FollowEnd::Other { place }),
            Ok(Compared::End) => self.ending = Some(FollowEnd::Held),
            Err(fault) => self.ending = Some(FollowEnd::Feed(fault)),
        }
    }
}

impl<S: Source, O: Sink> Take for Comparer<'_, S, O> {
    ghost use Rattle.page_follower.specs.Comparing.{ComparerTakes};

    ghost takes = { ComparerTakes S.view O.view };

    ghost ready = { λ comparer place. comparer.acks ≤ place };

    fn body(&mut self, place: u64, body: &[u8]) {
        let _ = place;
        match self.ending {
            Some(_) => {}
            None => {
                if !is_role(body) {
                    self.compare(body);
                }
            }
        }
    }
}
