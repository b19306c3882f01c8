// Where the bytes of a link stand in its requests.
ghost use Rattle.std.specs.Prelude.{◌≤◌, length, IfOk};
ghost use Rattle.http_forms.specs.Scan.{StandsIn};

use http_forms::{HeadScanner, body_length};
use std::alloc::{AllocError, Global};

/// What a link's next byte belongs to.
#[derive(Clone, Copy, Debug, PartialEq, Eq)]
pub enum Stage {
    /// A request of which no byte came yet.
    Between,
    /// The head of a request that has begun.
    Head,
    /// The body of a request.
    Body,
}

// The one field that gives a request a body.
const LENGTH: &[u8] = b"Content-Length";

// Whether the line begins with the name of that field.
fn may_tell_length(line: &[u8]) -> bool {
    match line.get(..LENGTH.len()) {
        Some(name) => name.eq_ignore_ascii_case(LENGTH),
        None => false,
    }
}

// How many bytes the body has after this head; none where the head is refused. Most heads have no line that tells it, and
// are not read for it.
fn body_after(head: &[u8]) -> usize {
    for line in head.split(|byte| *byte == b'\n') {
        if may_tell_length(line) {
            return body_length(head).unwrap_or(0) as usize;
        }
    }
    0
}

// How many bytes the body has after a head of so many bytes; none where the head is refused.
fn body_behind(bytes: &[u8], end: usize) -> usize {
    match bytes.get(..end) {
        Some(head) => body_after(head),
        None => 0,
    }
}

/// Follows the bytes of a link through its requests, by the rules that the requests are read by.
#[derive(Drop)]
pub struct Course {
    // What came of the head that has not ended yet.
    head: Vec<u8>,
    scanner: HeadScanner,
    // How many bytes of a body are still to come.
    body: usize,
    ghost stands: { StandsIn scanner head.items },
}

impl Course {
    /// No byte came yet.
    pub fn new(alloc: Global) -> Course {
        Course {
            head: Vec::new(alloc),
            scanner: HeadScanner::new(),
            body: 0,
        }
    }

    /// What the next byte belongs to.
    pub fn stage(&self) -> Stage {
        if self.body > 0 {
            Stage::Body
        } else if self.head.is_empty() {
            Stage::Between
        } else {
            Stage::Head
        }
    }

    /// Goes on over bytes that came. After a head that is refused the link is read no further.
    pub fn pass(&mut self, bytes: &[u8]) -> Result<(), AllocError> {
        let mut rest = bytes;
        for _ in 0..bytes.len() {
            if rest.is_empty() {
                break;
            }
            let count = self.take(rest)?;
            rest = &rest[count..];
        }
        Ok(())
    }

    // Takes the front of these bytes that belongs to the head or the body at hand. Says how many they are.
    fn take(&mut self, bytes: &[u8]) -> Result<usize, AllocError>
        ensures within { IfOk result (λ count. count ≤ length bytes.now) }
    {
        if self.body > 0 {
            let count = bytes.len().min(self.body);
            self.body -= count;
            return Ok(count);
        }
        self.head.extend_from_slice(bytes)?;
        match self.scanner.find(&self.head) {
            Some(end) => {
                let behind = self.head.len().saturating_sub(end);
                self.body = body_behind(&self.head, end);
                self.head.clear();
                self.scanner = HeadScanner::new();
                Ok(bytes.len().saturating_sub(behind))
            }
            None => Ok(bytes.len()),
        }
    }
}
