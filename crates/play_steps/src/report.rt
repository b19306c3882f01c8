ghost use Rattle.std.specs.Prelude.{◌≡◌, IfOk, Result};
ghost use Rattle.play_steps.specs.Reports.{take_report, sweep_report, compact_report};
ghost use Rattle.play_steps.specs.Texts as spec;

use reply_words::{ReplyStatus, Told};
use script_value::Reply;
use std::alloc::{AllocError, Global};

/// What a stage told of one event.
#[derive(Drop)]
pub enum Report {
    /// The worker took a ticket of this number.
    Taken { worker: u32, number: u64 },
    /// The worker was answered so.
    Replied { worker: u32, reply: Reply },
    /// The shelf was swept, and so many instances went.
    Swept { shelf: u32, count: u32 },
    /// The shelf was not swept, and why not.
    Unswept { shelf: u32, reply: Reply },
    /// The shelf's file was compacted, and has so many bytes.
    Compacted { shelf: u32, length: u64 },
    /// The shelf's file was not compacted, and why not.
    Uncompacted { shelf: u32, reply: Reply },
    /// The shelf's disk crashed, and the shelf was opened again with so many live instances.
    Reopened { shelf: u32, live: u32 },
}

impl Report {
    /// What a take told: the number that it drew, or the reply.
    pub fn of_take(worker: u32, taken: Result<u64, Reply>) -> Report
        ensures { result ≡ take_report worker taken }
    {
        match taken {
            Ok(number) => Report::Taken { worker, number },
            Err(reply) => Report::Replied { worker, reply },
        }
    }

    /// What a sweep told: how many instances went, or the reply.
    pub fn of_sweep(shelf: u32, swept: Result<u32, Reply>) -> Report
        ensures { result ≡ sweep_report shelf swept }
    {
        match swept {
            Ok(count) => Report::Swept { shelf, count },
            Err(reply) => Report::Unswept { shelf, reply },
        }
    }

    /// What a compaction told: the length of the file, or the reply.
    pub fn of_compaction(shelf: u32, compacted: Result<u64, Reply>) -> Report
        ensures { result ≡ compact_report shelf compacted }
    {
        match compacted {
            Ok(length) => Report::Compacted { shelf, length },
            Err(reply) => Report::Uncompacted { shelf, reply },
        }
    }

    /// The text of this report.
    #[tactic(auto, unfolding(crate::specs::Texts::report_text))]
    pub fn text(&self, alloc: Global) -> Result<Vec<u8>, AllocError>
        ensures { IfOk result (λ text. text.items ≡ spec.report_text self.now) }
    {
        match self {
            Report::Taken { worker, number } => taken_text(alloc, *worker, *number),
            Report::Replied { worker, reply } => reply_text(alloc, *worker, reply),
            Report::Swept { shelf, count } => swept_text(alloc, *shelf, *count),
            Report::Unswept { shelf, reply } => refused_text(alloc, *shelf, reply),
            Report::Compacted { shelf, length } => compacted_text(alloc, *shelf, *length),
            Report::Uncompacted { shelf, reply } => refused_text(alloc, *shelf, reply),
            Report::Reopened { shelf, live } => reopened_text(alloc, *shelf, *live),
        }
    }
}

/// The texts of these reports, one after another.
pub fn print(alloc: Global, reports: &[Report]) -> Result<Vec<u8>, AllocError>
    ensures { IfOk result (λ text. text.items ≡ spec.print reports.now) }
{
    let mut text = Vec::new(alloc);
    for report in reports {
        text.extend_from_slice(report.text(alloc)?.as_slice())?;
    }
    Ok(text)
}

// The text of a reply to a worker: a page after its length, or a status and a word.
#[tactic(auto, unfolding(crate::specs::Texts::reply_text))]
fn reply_text(alloc: Global, worker: u32, reply: &Reply) -> Result<Vec<u8>, AllocError>
    ensures { IfOk result (λ text. text.items ≡ spec.reply_text worker reply.now) }
{
    match Told::of(reply) {
        Told::Page(page) => page_text(alloc, worker, page),
        Told::Word(status, word) => line_text(alloc, worker, status, word),
    }
}

fn page_text(alloc: Global, worker: u32, page: &[u8]) -> Result<Vec<u8>, AllocError>
    ensures { IfOk result (λ text. text.items ≡ spec.page_text worker page.now) }
{
    let length = page.len();
    let head = format!(in alloc; "{worker} 200 {length}\n")?;
    let mut text = head.as_bytes().to_vec(alloc)?;
    text.extend_from_slice(page)?;
    text.push(b'\n')?;
    Ok(text)
}

fn line_text(
    alloc: Global,
    worker: u32,
    status: ReplyStatus,
    word: &str,
) -> Result<Vec<u8>, AllocError>
    ensures { IfOk result (λ text. text.items ≡ spec.line_text worker status word.now) }
{
    let number = status.number();
    let line = format!(in alloc; "{worker} {number} {word}\n")?;
    Ok(line.as_bytes().to_vec(alloc)?)
}

fn taken_text(alloc: Global, worker: u32, number: u64) -> Result<Vec<u8>, AllocError>
    ensures { IfOk result (λ text. text.items ≡ spec.taken_text worker number) }
{
    let line = format!(in alloc; "{worker} taken {number}\n")?;
    Ok(line.as_bytes().to_vec(alloc)?)
}

fn swept_text(alloc: Global, shelf: u32, count: u32) -> Result<Vec<u8>, AllocError>
    ensures { IfOk result (λ text. text.items ≡ spec.swept_text shelf count) }
{
    let line = format!(in alloc; "shelf {shelf} swept {count}\n")?;
    Ok(line.as_bytes().to_vec(alloc)?)
}

fn compacted_text(alloc: Global, shelf: u32, length: u64) -> Result<Vec<u8>, AllocError>
    ensures { IfOk result (λ text. text.items ≡ spec.compacted_text shelf length) }
{
    let line = format!(in alloc; "shelf {shelf} length {length}\n")?;
    Ok(line.as_bytes().to_vec(alloc)?)
}

// The text of a reply in the place of what a shelf was asked for.
fn refused_text(alloc: Global, shelf: u32, reply: &Reply) -> Result<Vec<u8>, AllocError>
    ensures { IfOk result (λ text. text.items ≡ spec.refused_text shelf reply.now) }
{
    let line = reply_text(alloc, shelf, reply)?;
    let mut text = b"shelf ".to_vec(alloc)?;
    text.extend_from_slice(line.as_slice())?;
    Ok(text)
}

fn reopened_text(alloc: Global, shelf: u32, live: u32) -> Result<Vec<u8>, AllocError>
    ensures { IfOk result (λ text. text.items ≡ spec.reopened_text shelf live) }
{
    let line = format!(in alloc; "shelf {shelf} live {live}\n")?;
    Ok(line.as_bytes().to_vec(alloc)?)
}
