ghost use Rattle.std.specs.Prelude.{◌≡◌, ◌<◌, ◌++◌, ℕ, Some, None, List, length, false};
ghost use Rattle.http_forms.specs.Head.{head_end};
ghost use Rattle.http_forms.specs.Progress.{IsDecided, FollowsBy, KnowsBy, Follows, Knows, Suffices};
ghost use Rattle.http_forms.specs.Request.{unfinished, Decides};

use crate::head::{HeadScanner, MOST_HEAD};
use crate::refused::Refused;
use crate::rows::{Asked, judge};

/// A head that is not refused: its length, and what it asks for.
#[derive(Clone, Copy, Debug, PartialEq, Eq)]
pub(crate) struct ReadHead {
    pub(crate) end: usize,
    pub(crate) asked: Asked,
}

/// What is known of the bytes so far.
#[derive(Clone, Copy, Debug, PartialEq, Eq)]
pub(crate) enum Progress {
    /// The head has no end yet.
    Head(HeadScanner),
    /// The head asks for a visit. Its body may need more bytes.
    Body(ReadHead),
    /// They are refused.
    Refused(Refused),
}

/// Follows the bytes of a request that come in pieces. A head is looked at once, however it is cut.
#[derive(Clone, Copy, Debug, PartialEq, Eq)]
pub struct RequestScanner {
    pub(crate) progress: Progress,
}

// What is known where the head ends there.
fn headed(bytes: &[u8], end: usize) -> Progress
    requires { head_end bytes.now ≡ Some end }
    ensures knows { KnowsBy result bytes.now }
    ensures goes_on { (more : List ℕ) → FollowsBy result (bytes.now ++ more) }
{
    match judge(&bytes[..end]) {
        Ok(asked) => Progress::Body(ReadHead { end, asked }),
        Err(reason) => Progress::Refused(reason),
    }
}

// What is known of these bytes, by what was known of the first of them.
fn moved(progress: Progress, bytes: &[u8]) -> Progress
    requires { FollowsBy progress bytes.now }
    ensures knows { KnowsBy result bytes.now }
    ensures goes_on { (more : List ℕ) → FollowsBy result (bytes.now ++ more) }
{
    match progress {
        Progress::Head(scanner) => {
            let mut scanner = scanner;
            match scanner.find(bytes) {
                Some(end) => headed(bytes, end),
                None => {
                    if bytes.len() < MOST_HEAD {
                        return Progress::Head(scanner);
                    }
                    Progress::Refused(Refused::Head)
                }
            }
        }
        Progress::Body(head) => Progress::Body(head),
        Progress::Refused(reason) => Progress::Refused(reason),
    }
}

// How many more bytes may be read.
fn wanted_by(progress: Progress, bytes: &[u8]) -> usize
    requires { KnowsBy progress bytes.now }
    ensures decided { result ≡ 0 → IsDecided bytes.now }
    ensures short { (more : List ℕ) → length more < result →
        Decides (bytes.now ++ more) false unfinished }
    ensures enough { Suffices result bytes.now }
{
    match progress {
        Progress::Head(_) => 1,
        Progress::Body(head) => {
            let total = head.end + head.asked.length as usize;
            total.saturating_sub(bytes.len())
        }
        Progress::Refused(_) => 0,
    }
}

impl RequestScanner {
    /// A scanner that has followed nothing.
    pub fn new() -> RequestScanner
        ensures { (bytes : List ℕ) → Follows result bytes }
    {
        RequestScanner {
            progress: Progress::Head(HeadScanner::new()),
        }
    }

    /// How many more bytes may be read without reading past the request, 0 where the bytes are a request or refused.
    /// After the end of a head that is all that the body still wants. The bytes are those of the last call, with others
    /// after them.
    pub fn wanted(&mut self, bytes: &[u8]) -> usize
        requires { Follows self.old bytes.now }
        ensures decided { result ≡ 0 → IsDecided bytes.now }
        // However many bytes fewer than these are read, the request is unfinished.
        ensures short { (more : List ℕ) → length more < result →
            Decides (bytes.now ++ more) false unfinished }
        ensures enough { Suffices result bytes.now }
        ensures knows { Knows self.new bytes.now }
        ensures goes_on { (more : List ℕ) → Follows self.new (bytes.now ++ more) }
    {
        self.progress = moved(self.progress, bytes);
        wanted_by(self.progress, bytes)
    }
}
