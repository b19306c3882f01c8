ghost use Rattle.std.specs.Prelude.{◌≡◌, ◌≤◌, [], ℕ, List, length, drop, IfOk, IsErrOf};
ghost use Rattle.web_outside.specs.Causes.{Rose};
ghost use Rattle.http_forms.specs.Progress.{Follows, Knows};
ghost use Rattle.http_forms.specs.Reader.{kept, ReadsMore, ReadsNoFurther, Fills, Gives, Nexts};
ghost use Rattle.http_forms.specs.Request.{Decides};
ghost use Rattle.http_forms.specs.declared.reader.ReadStop.TheVariants.{Failed as ReadFailed, Memory as ReadMemory};

use crate::progress::RequestScanner;
use crate::refused::{Refused, RequestFault};
use crate::request::Request;
use std::alloc::{AllocError, AllocFailed, Global};
use web_outside::{Failed, Source};

// How many bytes are asked for at a time: most requests are shorter.
const PIECE: usize = 1_024;

/// Why a request was not read.
#[derive(Clone, Copy, Debug, PartialEq, Eq)]
pub enum ReadStop {
    /// Reading failed.
    Failed,
    /// Memory ran out.
    Memory,
}

impl From<Failed> for ReadStop {
    ghost from_gives = { λ _ stop. stop ≡ ReadFailed };

    fn from(_: Failed) -> Self {
        ReadStop::Failed
    }
}

impl From<AllocError> for ReadStop {
    ghost from_gives = { λ _ stop. stop ≡ ReadMemory };

    fn from(_: AllocError) -> Self {
        ReadStop::Memory
    }
}

impl<T: Drop> From<AllocFailed<T>> for ReadStop {
    ghost from_gives = { λ _ stop. stop ≡ ReadMemory };

    fn from(_: AllocFailed<T>) -> Self {
        ReadStop::Memory
    }
}

/// What came over a link.
#[derive(Drop)]
pub enum Incoming {
    /// A request.
    Visit(Request),
    /// Bytes that are refused.
    Refused(Refused),
    /// Nothing: the link had ended.
    Nothing,
}

// Reads a piece after the bytes, none only at the end. Gives how many.
fn read_more<S: Source>(source: &mut S, bytes: &mut Vec<u8>) -> Result<usize, ReadStop>
    ensures read { ReadsMore (S.view source.old).left
        (S.view source.new).left bytes.old.items bytes.new.items result }
    ensures failed { IsErrOf result ReadStop.Failed →
        Rose (S.view source.old).faults (S.view source.new).faults }
    ensures later { (S.view source.old).faults ≤ (S.view source.new).faults }
{
    let mut piece = [0u8; PIECE];
    let count = source.read(&mut piece)?;
    bytes.extend_from_slice(&piece[..count])?;
    Ok(count)
}

// Reads on until the bytes are a request or refused, or the link ends. Says whether it ended after them.
fn fill<S: Source>(
    source: &mut S,
    scanner: &mut RequestScanner,
    bytes: &mut Vec<u8>,
) -> Result<bool, ReadStop>
    requires begins { (shown : List ℕ) → Follows scanner.old shown }
    ensures read { Fills (S.view source.old).left
        (S.view source.new).left bytes.old.items bytes.new.items result }
    ensures prompt { ReadsNoFurther (S.view source.old).left
        (S.view source.new).left bytes.old.items }
    ensures knows { IfOk result (λ _. Knows scanner.new bytes.new.items) }
    ensures failed { IsErrOf result ReadStop.Failed →
        Rose (S.view source.old).faults (S.view source.new).faults }
    ensures later { (S.view source.old).faults ≤ (S.view source.new).faults }
{
    let mut wanted = scanner.wanted(bytes);
    while wanted > 0 {
        if read_more(source, bytes)? == 0 {
            return Ok(true);
        }
        wanted = scanner.wanted(bytes);
    }
    Ok(false)
}

/// What the bytes of a link are, which ended after them or not.
pub fn incoming_of(
    alloc: Global,
    scanner: &RequestScanner,
    bytes: &[u8],
    ended: bool,
) -> Result<Incoming, ReadStop>
    requires { Knows scanner.now bytes.now }
    ensures { Gives result (Decides bytes.now ended) }
{
    match scanner.request(alloc, bytes, ended) {
        Ok(Some(request)) => Ok(Incoming::Visit(request)),
        Ok(None) => Ok(Incoming::Nothing),
        Err(RequestFault::Refused(reason)) => Ok(Incoming::Refused(reason)),
        Err(RequestFault::Memory) => Err(ReadStop::Memory),
    }
}

// Moves the bytes after the first so many to the front.
fn remove_front(bytes: &mut Vec<u8>, count: usize)
    requires { count ≤ length bytes.old.items }
    ensures { bytes.new.items ≡ drop count bytes.old.items }
{
    let left = bytes.len() - count;
    bytes.copy_within(count.., 0);
    bytes.truncate(left);
}

/// Reads the requests of a link, one after the other. It reads in pieces, and keeps what it read past a request for the next.
#[derive(Drop)]
pub struct RequestReader {
    pub(crate) bytes: Vec<u8>,
}

impl RequestReader {
    /// A reader that keeps nothing yet.
    pub fn new(alloc: Global) -> RequestReader
        ensures { kept result ≡ [] }
    {
        RequestReader {
            bytes: Vec::new(alloc),
        }
    }

    /// The next request of the link, after which the reader stands then; or why the bytes that come next are refused, which
    /// it goes on to keep; or nothing, where the link ended. It reads nothing where what it keeps tells already.
    pub fn next<S: Source>(&mut self, alloc: Global, source: &mut S) -> Result<Incoming, ReadStop>
        ensures next { Nexts (S.view source.old).left (S.view source.new).left
            (kept self.old) (kept self.new) result }
        ensures prompt { ReadsNoFurther (S.view source.old).left (S.view source.new).left
            (kept self.old) }
        ensures failed { IsErrOf result ReadStop.Failed →
            Rose (S.view source.old).faults (S.view source.new).faults }
        ensures later { (S.view source.old).faults ≤ (S.view source.new).faults }
    {
        let mut scanner = RequestScanner::new();
        let ended = fill(source, &mut scanner, &mut self.bytes)?;
        match incoming_of(alloc, &scanner, &self.bytes, ended)? {
            Incoming::Visit(request) => {
                remove_front(&mut self.bytes, request.length);
                Ok(Incoming::Visit(request))
            }
            Incoming::Refused(reason) => Ok(Incoming::Refused(reason)),
            Incoming::Nothing => Ok(Incoming::Nothing),
        }
    }
}
