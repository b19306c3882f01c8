ghost use Rattle.std.specs.Prelude.{◌≡◌, ◌≤◌, ◌<◌, ◌↔◌, ◌+◌, ◌^◌, IsTrue, length, take, drop};
ghost use Rattle.page_follower.specs.Feed.{most_of_feed};

use crate::fault::FeedFault;
use crate::{FEED_HEAD, FEED_LIMIT};
use shelf::{Source, u32_from_wire};
use std::alloc::Global;

/// How the next record of a feed is to one that is held.
#[derive(Clone, Copy, Debug, PartialEq, Eq)]
pub enum Compared {
    /// It has the same body.
    Same,
    /// It has another body.
    Other,
    /// There is none: the feed has ended.
    End,
}

// Whether a text goes on from this place with the piece.
fn goes_on(text: &[u8], place: usize, piece: &[u8]) -> bool
    requires room { place + length piece.now < 2 ^ 63 }
    requires within { place ≤ length text.now }
    ensures { IsTrue result ↔ take (length piece.now) (drop place text.now) ≡ piece.now }
{
    place + piece.len() <= text.len() && &text[place..place + piece.len()] == piece
}

// Whether a text is the same as another up to this place, and goes on from there with the piece.
fn still_same(same: bool, text: &[u8], place: usize, piece: &[u8]) -> bool
    requires room { place + length piece.now < 2 ^ 63 }
    requires within { IsTrue same → place ≤ length text.now }
    ensures { IsTrue result
        ↔ (IsTrue same × (take (length piece.now) (drop place text.now) ≡ piece.now)) }
{
    same && goes_on(text, place, piece)
}

/// Reads a feed piece by piece, and no further than it is asked for. It counts what came.
#[derive(Drop)]
pub struct FeedReader {
    place: u64,
    ghost within: { place ≤ 2 ^ 30 },
}

impl FeedReader {
    ghost use Rattle.page_follower.specs.Reading.{Reads, Fills, Heads, Sizes, MatchesFrom, Compares, Gathers, TakesNext};

    /// Nothing came yet.
    pub fn new() -> FeedReader
        ensures { result.place ≡ 0 }
    {
        FeedReader { place: 0 }
    }

    /// How many bytes of the feed came.
    pub fn place(&self) -> u64
        ensures place { result ≡ self.now.place }
        ensures within { result ≤ most_of_feed }
    {
        self.place
    }

    // Reads some bytes into the buffer, none only at the end.
    fn read<S: Source>(&mut self, source: &mut S, buffer: &mut [u8]) -> Result<usize, FeedFault>
        ensures later { (S.view source.old).faults ≤ (S.view source.new).faults }
        ensures reads { Reads (S.view source.old) (S.view source.new)
            self.old.place self.new.place buffer.new result }
    {
        let count = source.read(buffer)?;
        let place = self.place + count as u64;
        if place > FEED_LIMIT {
            return Err(FeedFault::Long);
        }
        self.place = place;
        Ok(count)
    }

    // Reads until the buffer is full or the source has ended, and says how many bytes came.
    fn fill<S: Source>(&mut self, source: &mut S, buffer: &mut [u8]) -> Result<usize, FeedFault>
        ensures later { (S.view source.old).faults ≤ (S.view source.new).faults }
        ensures fills { Fills (S.view source.old) (S.view source.new)
            self.old.place self.new.place buffer.new result }
    {
        let mut done = 0;
        while done < buffer.len() {
            let count = self.read(source, &mut buffer[done..])?;
            if count == 0 {
                return Ok(done);
            }
            done += count;
        }
        Ok(done)
    }

    /// Reads the head, with which a feed begins.
    pub fn head<S: Source>(&mut self, source: &mut S) -> Result<(), FeedFault>
        requires { self.old.place ≡ 0 }
        ensures later { (S.view source.old).faults ≤ (S.view source.new).faults }
        ensures heads { Heads (S.view source.old) (S.view source.new)
            self.old.place self.new.place result }
    {
        let mut head = [0u8; 8];
        let count = self.fill(source, &mut head)?;
        if goes_on(&FEED_HEAD, 0, &head[..count]) {
            if count < 8 {
                Err(FeedFault::Cut { place: 0 })
            } else {
                Ok(())
            }
        } else {
            Err(FeedFault::Head)
        }
    }

    // Reads the length of the next record, if there is one.
    fn size<S: Source>(&mut self, source: &mut S) -> Result<Option<u32>, FeedFault>
        ensures later { (S.view source.old).faults ≤ (S.view source.new).faults }
        ensures sizes { Sizes (S.view source.old) (S.view source.new)
            self.old.place self.new.place result }
    {
        let start = self.place;
        let mut size = [0u8; 4];
        match self.fill(source, &mut size)? {
            0 => Ok(None),
            4 => Ok(Some(u32_from_wire(size))),
            _ => Err(FeedFault::Cut { place: start }),
        }
    }

    // Reads a body of this length and says whether it is the one that is held. The record begins at `start`.
    fn matches<S: Source>(
        &mut self,
        source: &mut S,
        start: u64,
        size: u32,
        held: &[u8],
    ) -> Result<bool, FeedFault>
        ensures later { (S.view source.old).faults ≤ (S.view source.new).faults }
        ensures matches { MatchesFrom S.view source.old source.new
            self.old.place self.new.place size start held.now result }
    {
        let size = size as usize;
        let mut piece = [0u8; 4096];
        let mut done = 0;
        let mut same = size == held.len();
        while done < size {
            let room = (size - done).min(4096);
            let count = self.read(source, &mut piece[..room])?;
            if count == 0 {
                return Err(FeedFault::Cut { place: start });
            }
            same = still_same(same, held, done, &piece[..count]);
            done += count;
        }
        Ok(same)
    }

    /// Reads the next record and compares it with a body that is held. Nothing of it is kept.
    pub fn compare<S: Source>(&mut self, source: &mut S, held: &[u8]) -> Result<Compared, FeedFault>
        ensures later { (S.view source.old).faults ≤ (S.view source.new).faults }
        ensures compares { Compares (S.view source.old) (S.view source.new)
            self.old.place self.new.place held.now result }
    {
        let start = self.place;
        let Some(size) = self.size(source)? else {
            return Ok(Compared::End);
        };
        if self.matches(source, start, size, held)? {
            Ok(Compared::Same)
        } else {
            Ok(Compared::Other)
        }
    }

    // Reads a body of this length. The record begins at `start`.
    fn gather<S: Source>(
        &mut self,
        alloc: Global,
        source: &mut S,
        start: u64,
        size: u32,
    ) -> Result<Vec<u8>, FeedFault>
        ensures later { (S.view source.old).faults ≤ (S.view source.new).faults }
        ensures gathers { Gathers (S.view source.old) (S.view source.new)
            self.old.place self.new.place size start result }
    {
        let size = size as usize;
        let mut body = Vec::new(alloc);
        let mut piece = [0u8; 4096];
        while body.len() < size {
            let room = (size - body.len()).min(4096);
            let count = self.read(source, &mut piece[..room])?;
            if count == 0 {
                return Err(FeedFault::Cut { place: start });
            }
            body.extend_from_slice(&piece[..count])?;
        }
        Ok(body)
    }

    /// Reads the body of the next record, if there is one.
    pub fn next<S: Source>(
        &mut self,
        alloc: Global,
        source: &mut S,
    ) -> Result<Option<Vec<u8>>, FeedFault>
        ensures later { (S.view source.old).faults ≤ (S.view source.new).faults }
        ensures takes { TakesNext (S.view source.old) (S.view source.new)
            self.old.place self.new.place result }
    {
        let start = self.place;
        match self.size(source)? {
            Some(size) => Ok(Some(self.gather(alloc, source, start, size)?)),
            None => Ok(None),
        }
    }
}
