ghost use Rattle.std.specs.Prelude.{◌≡◌, ◌≤◌, ◌++◌, ◌∷◌, ℕ, List, length, take, IfNone, IfSome};
ghost use Rattle.http_forms.specs.Head as spec;
ghost use Rattle.http_forms.specs.Scan.{end_from, end_behind, HasPassed, LacksLineFeed, StandsIn};

use memchr::memchr;

/// The most bytes of a head.
pub(crate) const MOST_HEAD: usize = 16_384;

/// What stands before the next byte of a head.
#[derive(Clone, Copy, Debug, PartialEq, Eq)]
enum Phase {
    /// Nothing but empty lines.
    Blank,
    /// Empty lines and a carriage return.
    BlankReturn,
    /// A part of a line.
    Line,
    /// The end of a line.
    LineFeed,
    /// The end of a line and a carriage return.
    LineReturn,
}

// The phase after one more byte, if the head does not end with it.
fn step(phase: Phase, byte: u8) -> Option<Phase>
    ensures { (more : List ℕ) → end_from phase (byte ∷ more) ≡ end_behind result more }
{
    match (phase, byte) {
        (Phase::LineFeed | Phase::LineReturn, b'\n') => None,
        (Phase::Blank | Phase::BlankReturn, b'\n') => Some(Phase::Blank),
        (Phase::Line, b'\n') => Some(Phase::LineFeed),
        (Phase::Blank, b'\r') => Some(Phase::BlankReturn),
        (Phase::LineFeed, b'\r') => Some(Phase::LineReturn),
        _ => Some(Phase::Line),
    }
}

// How many bytes stand before the first line feed: all, where there is none.
fn line_length(bytes: &[u8]) -> usize
    ensures lacks { LacksLineFeed bytes.now result }
    ensures inside { result ≤ length bytes.now }
{
    match memchr(b'\n', bytes) {
        Some(place) => place,
        None => bytes.len(),
    }
}

// The place to go on at: a line is passed over up to its end.
fn go_on(phase: Phase, bytes: &[u8], place: usize) -> usize
    requires { place ≤ length bytes.now }
    ensures passes { HasPassed phase (take place bytes.now) →
        HasPassed phase (take result bytes.now) }
    ensures later { place ≤ result }
    ensures inside { result ≤ length bytes.now }
{
    match phase {
        Phase::Line => place + line_length(&bytes[place..]),
        Phase::Blank | Phase::BlankReturn | Phase::LineFeed | Phase::LineReturn => place,
    }
}

/// Searches bytes that come in pieces for the end of a head, each byte once.
#[derive(Clone, Copy, Debug, PartialEq, Eq)]
pub struct HeadScanner {
    phase: Phase,
    place: usize,
}

impl HeadScanner {
    /// A scanner that has passed over nothing.
    pub fn new() -> HeadScanner
        ensures { (bytes : List ℕ) → StandsIn result bytes }
    {
        HeadScanner {
            phase: Phase::Blank,
            place: 0,
        }
    }

    /// The length of the head that the bytes begin with, once they hold its end. Only bytes after those that were passed
    /// over before are looked at. Without an end all of the bytes are passed over, and the search goes on after them.
    pub fn find(&mut self, bytes: &[u8]) -> Option<usize>
        requires { StandsIn self.old bytes.now }
        ensures end { result ≡ spec.head_end bytes.now }
        ensures goes_on { IfNone result ((more : List ℕ) → StandsIn self.new (bytes.now ++ more)) }
        ensures place { IfNone result (self.new.place ≡ length bytes.now) }
    {
        let mut phase = self.phase;
        let mut place = self.place;
        'lines: while place < bytes.len() {
            let Some(next) = step(phase, bytes[place]) else {
                return Some(place + 1);
            };
            phase = next;
            place = go_on(next, bytes, place + 1);
        }
        *self = HeadScanner { phase, place };
        None
    }
}

/// The length of the head that the bytes begin with, up to and with the first empty line after its first line; empty
/// lines before that line belong to it. `None` where the bytes do not hold the head's end.
pub fn head_end(bytes: &[u8]) -> Option<usize>
    ensures end { result ≡ spec.head_end bytes.now }
    ensures inside { IfSome result (λ n. n ≤ length bytes.now) }
{
    HeadScanner::new().find(bytes)
}

/// The bytes after the empty lines that stand before the first line.
pub(crate) fn without_blank(bytes: &[u8]) -> &[u8]
    ensures { result.now ≡ spec.without_blank bytes.now }
{
    let mut rest = bytes;
    loop {
        match rest {
            [b'\n', behind @ ..] => rest = behind,
            [b'\r', b'\n', behind @ ..] => rest = behind,
            _ => return rest,
        }
    }
}

/// How many of a head's lines stand between the first and the empty line that ends it.
pub(crate) fn field_lines(lines: &[u8]) -> usize
    ensures { result ≡ spec.field_lines lines.now }
{
    let line_feeds = lines.iter().filter(|b| **b == b'\n').count();
    line_feeds.saturating_sub(2)
}
