ghost use Rattle.std.specs.Prelude.{◌≡◌, ◌≤◌, ◌<◌, ◌^◌, Some, None, true, length, option_map, IfSome};
ghost use Rattle.std.specs.List.{list_all};
ghost use Rattle.script_value.specs.Pieces.{number_below};
ghost use Rattle.server_limits.specs.Counts.{most_workers};
ghost use Rattle.play_steps.specs.Step as spec;
ghost use Rattle.play_steps.specs.Views.{meaning, step_found};

use script_value::pieces::{behind, cut_at, number, small_number};
use server_limits::MOST_WORKERS;

/// How many bytes the text of an edit has at most.
pub const TEXT_LIMIT: u64 = 16_777_216;

/// A step.
#[derive(Clone, Copy)]
pub enum Step<'a> {
    /// The worker takes a ticket for a visit of the target.
    Take { worker: u32, target: &'a [u8] },
    /// The worker's ticket is spent.
    Publish { worker: u32 },
    /// A take, and where it gives a ticket its publish.
    Get { worker: u32, target: &'a [u8] },
    /// Each shelf is swept at this time, in seconds.
    Tick { time: u64 },
    /// The shelf's disk crashes, and the shelf is opened again.
    Crash { shelf: u32 },
    /// The shelf's file gives place to one that has no more than the shelf needs.
    Compact { shelf: u32 },
    /// The script of this name has this text from now on, or stands after the others; the crash of
    /// every shelf follows.
    Edit { name: &'a [u8], text: &'a [u8] },
    /// A crash that follows an edit. No line spells it.
    CrashEdited { shelf: u32 },
}

// How many newlines the bytes have.
fn newlines(bytes: &[u8]) -> u64
    ensures counted { result ≡ spec.newlines bytes.now }
    ensures few { result ≤ length bytes.now }
{
    let mut count = 0u64;
    for byte in bytes {
        if *byte == b'\n' {
            count += 1;
        }
    }
    count
}

impl Step<'_> {
    /// How many lines it has.
    pub fn lines(&self) -> u64
        ensures { result ≡ spec.lines_in (meaning self.now) }
    {
        match self {
            Step::Take { .. }
            | Step::Publish { .. }
            | Step::Get { .. }
            | Step::Tick { .. }
            | Step::Crash { .. }
            | Step::Compact { .. } => 1,
            Step::Edit { text, .. } => newlines(text) + 2,
            Step::CrashEdited { .. } => 0,
        }
    }
}

// The number of a worker.
fn worker_of(digits: &[u8]) -> Option<u32>
    ensures spelled { result ≡ spec.worker_of digits.now }
    ensures range { IfSome result (λ worker. worker < most_workers) }
{
    let worker = small_number(digits)?;
    if worker < MOST_WORKERS {
        Some(worker)
    } else {
        None
    }
}

// The number of a shelf.
fn shelf_of(digits: &[u8]) -> Option<u32>
    ensures spelled { result ≡ number_below (2 ^ 32) digits.now }
    ensures range { IfSome result (λ shelf. shelf < 2 ^ 32) }
{
    small_number(digits)
}

// A time below 2^62.
fn time_of(digits: &[u8]) -> Option<u64>
    ensures spelled { result ≡ number_below (2 ^ 62) digits.now }
    ensures range { IfSome result (λ time. time < 2 ^ 62) }
{
    let time = number(digits)?;
    if time < 1 << 62 { Some(time) } else { None }
}

// Whether the byte may stand in a target.
fn is_target_byte(byte: u8) -> bool
    ensures { result ≡ spec.is_target_byte byte }
{
    33 <= byte && byte <= 126
}

fn are_target_bytes(target: &[u8]) -> bool
    ensures { result ≡ list_all spec.is_target_byte target.now }
{
    target.iter().all(|b| is_target_byte(*b))
}

// Whether these bytes spell a target.
fn is_target(target: &[u8]) -> bool
    ensures { result ≡ spec.is_target target.now }
{
    !target.is_empty() && are_target_bytes(target)
}

// A worker and a target.
#[tactic(auto, unfolding(crate::specs::Step::aim_of))]
fn aim_of(bytes: &[u8]) -> Option<(u32, &[u8])>
    ensures spelled { option_map (λ aim. (aim.0, aim.1.now)) result ≡ spec.aim_of bytes.now }
    ensures worker { IfSome result (λ aim. aim.0 < most_workers) }
    ensures target { IfSome result (λ aim. spec.is_target aim.1.now ≡ true) }
{
    let (digits, target) = cut_at(b' ', bytes)?;
    let worker = worker_of(digits)?;
    if !is_target(target) {
        return None;
    }
    Some((worker, target))
}

#[tactic(auto, unfolding(crate::specs::Step::take_of))]
fn take_of(line: &[u8]) -> Option<Step>
    ensures spelled { option_map meaning result ≡ spec.take_of line.now }
    ensures range { IfSome result (λ step. spec.IsStep (meaning step)) }
{
    let (worker, target) = aim_of(behind(b"take ", line)?)?;
    Some(Step::Take { worker, target })
}

#[tactic(auto, unfolding(crate::specs::Step::publish_of))]
fn publish_of(line: &[u8]) -> Option<Step>
    ensures spelled { option_map meaning result ≡ spec.publish_of line.now }
    ensures range { IfSome result (λ step. spec.IsStep (meaning step)) }
{
    let worker = worker_of(behind(b"publish ", line)?)?;
    Some(Step::Publish { worker })
}

#[tactic(auto, unfolding(crate::specs::Step::get_of))]
fn get_of(line: &[u8]) -> Option<Step>
    ensures spelled { option_map meaning result ≡ spec.get_of line.now }
    ensures range { IfSome result (λ step. spec.IsStep (meaning step)) }
{
    let (worker, target) = aim_of(behind(b"get ", line)?)?;
    Some(Step::Get { worker, target })
}

#[tactic(auto, unfolding(crate::specs::Step::tick_of))]
fn tick_of(line: &[u8]) -> Option<Step>
    ensures spelled { option_map meaning result ≡ spec.tick_of line.now }
    ensures range { IfSome result (λ step. spec.IsStep (meaning step)) }
{
    let time = time_of(behind(b"tick ", line)?)?;
    Some(Step::Tick { time })
}

#[tactic(auto, unfolding(crate::specs::Step::crash_of))]
fn crash_of(line: &[u8]) -> Option<Step>
    ensures spelled { option_map meaning result ≡ spec.crash_of line.now }
    ensures range { IfSome result (λ step. spec.IsStep (meaning step)) }
{
    let shelf = shelf_of(behind(b"crash ", line)?)?;
    Some(Step::Crash { shelf })
}

#[tactic(auto, unfolding(crate::specs::Step::compact_of))]
fn compact_of(line: &[u8]) -> Option<Step>
    ensures spelled { option_map meaning result ≡ spec.compact_of line.now }
    ensures range { IfSome result (λ step. spec.IsStep (meaning step)) }
{
    let shelf = shelf_of(behind(b"compact ", line)?)?;
    Some(Step::Compact { shelf })
}

// The step that a line is.
#[tactic(auto, unfolding(crate::specs::Step::step_of))]
fn parse(line: &[u8]) -> Option<Step>
    ensures spelled { option_map meaning result ≡ spec.step_of line.now }
    ensures range { IfSome result (λ step. spec.IsStep (meaning step)) }
{
    if let Some(step) = take_of(line) {
        return Some(step);
    }
    if let Some(step) = publish_of(line) {
        return Some(step);
    }
    if let Some(step) = get_of(line) {
        return Some(step);
    }
    if let Some(step) = tick_of(line) {
        return Some(step);
    }
    if let Some(step) = crash_of(line) {
        return Some(step);
    }
    compact_of(line)
}

// The name and the length that the head of an edit spells.
#[tactic(auto, unfolding(crate::specs::Step::edit_head))]
fn edit_head(line: &[u8]) -> Option<(&[u8], usize)>
    ensures spelled { option_map (λ head. (head.0.now, head.1)) result ≡ spec.edit_head line.now }
{
    let (name, digits) = cut_at(b' ', behind(b"edit ", line)?)?;
    let length = number(digits)?;
    if length <= TEXT_LIMIT {
        Some((name, length as usize))
    } else {
        None
    }
}

// The edit whose text the bytes begin with, and the bytes after the text's newline.
#[tactic(auto, unfolding(crate::specs::Step::edit_with))]
fn edit_with<'a>(name: &'a [u8], length: usize, bytes: &'a [u8]) -> Option<(Step<'a>, &'a [u8])>
    ensures spelled { option_map step_found result ≡ spec.edit_with (name.now, length) bytes.now }
{
    if bytes.len() < length {
        return None;
    }
    let (text, rest) = bytes.split_at(length);
    let rest = behind(b"\n", rest)?;
    Some((Step::Edit { name, text }, rest))
}

/// The step at the front of these bytes, and the bytes after its lines. A step is a line:
/// `take W TARGET`, `publish W` or `get W TARGET` of a worker below `MOST_WORKERS`, `tick T` of a time
/// below 2^62, in seconds, or `crash S` or `compact S` of a shelf; or the line `edit NAME LENGTH`, so many bytes, at
/// most `TEXT_LIMIT`, and a newline.
#[tactic(auto, unfolding(crate::specs::Step::first_step), using(crate::proofs::Within::step_within))]
pub fn read_step(bytes: &[u8]) -> Option<(Step<'_>, &[u8])>
    ensures spelled { option_map step_found result ≡ spec.first_step bytes.now }
    ensures range { IfSome result (λ found. spec.IsStep (meaning found.0)) }
    ensures within { IfSome result (λ found. spec.IsWithin (meaning found.0)) }
{
    let (line, rest) = cut_at(b'\n', bytes)?;
    match edit_head(line) {
        Some((name, length)) => edit_with(name, length, rest),
        None => Some((parse(line)?, rest)),
    }
}
