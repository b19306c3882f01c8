ghost use Rattle.std.specs.Prelude.{◌≡◌, ◌≢◌, ◌≤◌, ◌++◌, ◌∷◌, [], Some, codes, IfErr, IfOk, string_bytes};
ghost use Rattle.std.specs.Fmt.{decimal};
ghost use Rattle.std.specs.Io.KnownBytes.{Keeps};
ghost use Rattle.web_outside.specs.Pieces.{HandsAllOn};
ghost use Rattle.script_nodes.specs.Views.{scripts_of};
ghost use Rattle.setup_reader.specs.Views.{fault_of};
ghost use Rattle.request_workers.specs.Tallies.{count_of};
ghost use Rattle.server_command.specs.declared.program.Status.{Status};
ghost use Rattle.server_command.specs.Command.{Counts, IsDoneUnlessFault, TellsFaultLine, TellsLine, unread_line, unread_status};
ghost use Rattle.server_command.specs.Output.{Hands, HandsOnIfDone, PrintsTo, memory_line, sinks_of, step_line};
ghost use Rattle.server_command.specs.Racks.{damaged, disk_line, full, not_empty, other, unfit_line};
ghost use Rattle.server_command.specs.Serving.{TellsCount, count_line};
ghost use Rattle.server_command.specs.Auditing.{TellsAudited, TellsEnd, end_line, end_status, finding_line, ok_line, word_text};
ghost use Rattle.server_command.specs.Feeding.{TellsFeed, TellsFeedFault, TellsFollowed, TellsPromoted, feed_line, promoted_line};
ghost use Rattle.server_command.specs.Telling.{TellsOutcome, TellsUnopened, unopened_line, unopened_status};

use crate::auditing::{AuditCause, AuditEnd};
use crate::program::Status;
use crate::serving::ServeFault;
use page_audit::Word;
use page_follower::{FeedFault, FollowEnd};
use play_desk::OpenFault;
use play_steps::Reopen;
use request_workers::Tally;
use script_nodes::Setup;
use setup_reader::{SetupError, fault_line};
use std::alloc::{AllocError, Global};
use web_outside::{InputFault, Sink, write_all, write_or_drop};

// The line that names the line of the steps at which a run ended.
fn line_error(alloc: Global, number: u64) -> Result<String, AllocError>
    ensures { IfOk result (λ text. string_bytes text ≡ step_line number) }
{
    format!(in alloc; "error 4 {number}\n")
}

// The line that tells how many scripts there are.
fn count_line(alloc: Global, count: usize) -> Result<String, AllocError>
    ensures { IfOk result (λ text. string_bytes text ≡ codes "ok " ++ (decimal count ++ 10 ∷ [])) }
{
    format!(in alloc; "ok {count}\n")
}

/// Says that memory ran out.
pub fn no_memory<O: Sink>(output: &mut O) -> Status
    ensures status { result ≡ Status.Memory }
    ensures line { PrintsTo (sinks_of (O.view output.old) (O.view output.new)) memory_line }
    ensures handed { HandsAllOn (O.view output.old) (O.view output.new) }
    ensures later { (O.view output.old).faults ≤ (O.view output.new).faults }
{
    write_or_drop(output, b"error 10 memory\n");
    Status::Memory
}

/// Says why the input was not read whole.
pub fn tell_unread<O: Sink>(fault: InputFault, output: &mut O) -> Status
    ensures status { result ≡ unread_status fault }
    ensures line { PrintsTo (sinks_of (O.view output.old) (O.view output.new)) (unread_line fault) }
    ensures handed { HandsAllOn (O.view output.old) (O.view output.new) }
    ensures later { (O.view output.old).faults ≤ (O.view output.new).faults }
    ensures other { result ≢ Status.Done }
{
    match fault {
        InputFault::Failed => {
            write_or_drop(output, b"error 5 read\n");
            Status::Read
        }
        InputFault::Memory => no_memory(output),
        InputFault::Long => {
            write_or_drop(output, b"error 11 long\n");
            Status::Long
        }
    }
}

/// Hands on all that was written, after which nothing is told.
pub fn hand_on<O: Sink>(output: &mut O) -> Status
    ensures done { HandsOnIfDone result (O.view output.new) }
    ensures same { Keeps (O.view output.old).written (O.view output.new).written }
    ensures status { IsDoneUnlessFault result
        (O.view output.old).faults (O.view output.new).faults }
    ensures later { (O.view output.old).faults ≤ (O.view output.new).faults }
{
    match output.flush() {
        Ok(()) => Status::Done,
        Err(_) => Status::Write,
    }
}

/// Tells how many scripts a setup has.
pub fn tell_count<O: Sink>(alloc: Global, setup: &Setup, output: &mut O) -> Status
    ensures outputs { Counts (scripts_of setup.now) result
        (sinks_of (O.view output.old) (O.view output.new)) }
    ensures handed { HandsAllOn (O.view output.old) (O.view output.new) }
    ensures later { (O.view output.old).faults ≤ (O.view output.new).faults }
    ensures done { HandsOnIfDone result (O.view output.new) }
{
    let Ok(text) = count_line(alloc, setup.len()) else {
        return no_memory(output);
    };
    match write_all(output, text.as_bytes()) {
        Ok(()) => hand_on(output),
        Err(_) => Status::Write,
    }
}

/// Tells at which line of the steps a run ended.
pub fn tell_line<O: Sink>(alloc: Global, number: u64, output: &mut O) -> Status
    ensures tells { TellsLine number result (sinks_of (O.view output.old) (O.view output.new)) }
    ensures handed { HandsAllOn (O.view output.old) (O.view output.new) }
    ensures later { (O.view output.old).faults ≤ (O.view output.new).faults }
{
    match line_error(alloc, number) {
        Ok(text) => {
            write_or_drop(output, text.as_bytes());
            Status::Line
        }
        Err(_) => no_memory(output),
    }
}

/// Tells the fault of a setup.
pub fn tell_fault<O: Sink>(alloc: Global, error: &SetupError, output: &mut O) -> Status
    ensures line { TellsFaultLine (fault_of error.now) result
        (sinks_of (O.view output.old) (O.view output.new)) }
    ensures handed { HandsAllOn (O.view output.old) (O.view output.new) }
    ensures later { (O.view output.old).faults ≤ (O.view output.new).faults }
    ensures other { result ≢ Status.Done }
{
    match fault_line(alloc, error) {
        Ok(text) => {
            write_or_drop(output, text.as_bytes());
            Status::Setup
        }
        Err(_) => no_memory(output),
    }
}

// The line of a tally's counts.
fn tally_line(alloc: Global, tally: &Tally) -> Result<String, AllocError>
    ensures { IfOk result (λ text. string_bytes text ≡ count_line (count_of tally.now)) }
{
    let Tally {
        pages,
        refused,
        dropped,
        ..
    } = *tally;
    if dropped == 0 {
        format!(in alloc; "pages {pages} refused {refused}\n")
    } else {
        format!(in alloc; "pages {pages} refused {refused} dropped {dropped}\n")
    }
}

/// Tells what was counted.
pub fn tell_tally<O: Sink>(alloc: Global, tally: &Tally, output: &mut O) -> Status
    ensures outputs { TellsCount (count_of tally.now) result
        (sinks_of (O.view output.old) (O.view output.new)) }
    ensures handed { HandsAllOn (O.view output.old) (O.view output.new) }
    ensures later { (O.view output.old).faults ≤ (O.view output.new).faults }
    ensures done { HandsOnIfDone result (O.view output.new) }
{
    let Ok(text) = tally_line(alloc, tally) else {
        return no_memory(output);
    };
    match write_all(output, text.as_bytes()) {
        Ok(()) => hand_on(output),
        Err(_) => Status::Write,
    }
}

// The line that names a shelf whose disk failed.
fn disk_error(alloc: Global, shelf: u32) -> Result<String, AllocError>
    ensures { IfOk result (λ text. string_bytes text ≡ disk_line shelf) }
{
    format!(in alloc; "error 7 {shelf} disk\n")
}

// The line that names a shelf whose disk is not empty.
fn not_empty_error(alloc: Global, shelf: u32) -> Result<String, AllocError>
    ensures { IfOk result (λ text. string_bytes text ≡ unfit_line shelf not_empty) }
{
    format!(in alloc; "error 8 {shelf} 0 not-empty\n")
}

// The line that names a shelf and the place of its journal that is no record of it.
fn damage_error(alloc: Global, shelf: u32, place: u64) -> Result<String, AllocError>
    ensures { IfOk result (λ text. string_bytes text ≡ unfit_line shelf (damaged place)) }
{
    format!(in alloc; "error 8 {shelf} {place} damaged\n")
}

// The line that names a shelf and the place of another shelf's journal.
fn other_error(alloc: Global, shelf: u32, place: u64) -> Result<String, AllocError>
    ensures { IfOk result (λ text. string_bytes text ≡ unfit_line shelf (other place)) }
{
    format!(in alloc; "error 8 {shelf} {place} other\n")
}

// The line that names a shelf and the length that its journal would have, too many bytes.
fn full_error(alloc: Global, shelf: u32, len: u64) -> Result<String, AllocError>
    ensures { IfOk result (λ text. string_bytes text ≡ unfit_line shelf (full len)) }
{
    format!(in alloc; "error 8 {shelf} {len} full\n")
}

// The line that tells why a shelf was not opened, where that is no want of memory.
fn unopened_error(alloc: Global, fault: OpenFault) -> Result<String, AllocError>
    ensures { IfOk result (λ text. unopened_line fault.shelf fault.why ≡ Some (string_bytes text)) }
{
    let OpenFault { shelf, why } = fault;
    match why {
        Reopen::Disk => disk_error(alloc, shelf),
        Reopen::NotEmpty => not_empty_error(alloc, shelf),
        Reopen::Damaged { place } => damage_error(alloc, shelf, place),
        Reopen::Other { place } => other_error(alloc, shelf, place),
        Reopen::Full { len } => full_error(alloc, shelf, len),
        Reopen::Memory => Err(AllocError),
    }
}

// The status of a shelf that was not opened for this cause.
fn unopened_status(why: Reopen) -> Status
    ensures { result ≡ unopened_status why }
{
    match why {
        Reopen::Disk => Status::Disk,
        Reopen::NotEmpty | Reopen::Damaged { .. } | Reopen::Other { .. } | Reopen::Full { .. } =>
            Status::Journal,
        Reopen::Memory => Status::Memory,
    }
}

/// Tells which shelf was not opened, and why.
pub fn tell_unopened<O: Sink>(alloc: Global, fault: OpenFault, output: &mut O) -> Status
    ensures tells { TellsUnopened fault.shelf fault.why result
        (sinks_of (O.view output.old) (O.view output.new)) }
    ensures handed { HandsAllOn (O.view output.old) (O.view output.new) }
    ensures later { (O.view output.old).faults ≤ (O.view output.new).faults }
    ensures other { result ≢ Status.Done }
{
    match unopened_error(alloc, fault) {
        Ok(text) => {
            write_or_drop(output, text.as_bytes());
            unopened_status(fault.why)
        }
        Err(_) => no_memory(output),
    }
}

// The word of a record to which an audit says no.
fn word_text(word: Word) -> &'static str
    ensures { result.now ≡ word_text word }
{
    match word {
        Word::Sweep => "sweep",
        Word::Number => "number",
        Word::Target => "target",
        Word::Run => "run",
        Word::Evicted => "evicted",
        Word::Deadline => "deadline",
        Word::State => "state",
    }
}

// The line of a shelf with so many records, each answered yes.
fn audited_line(alloc: Global, shelf: u32, records: u64) -> Result<String, AllocError>
    ensures { IfOk result (λ text. string_bytes text ≡ ok_line shelf records) }
{
    format!(in alloc; "shelf {shelf} ok {records}\n")
}

/// Tells how many records a shelf has, each of which was answered yes.
pub fn tell_audited<O: Sink>(
    alloc: Global,
    shelf: u32,
    records: u64,
    output: &mut O,
) -> Result<(), Status>
    ensures tells { TellsAudited shelf records result
        (sinks_of (O.view output.old) (O.view output.new)) }
    ensures hands { IfErr result (λ how. Hands how (O.view output.old) (O.view output.new)) }
    ensures later { (O.view output.old).faults ≤ (O.view output.new).faults }
{
    let Ok(text) = audited_line(alloc, shelf, records) else {
        return Err(no_memory(output));
    };
    match write_all(output, text.as_bytes()) {
        Ok(()) => Ok(()),
        Err(_) => Err(Status::Write),
    }
}

// The line of a record to which an audit says no.
fn finding_error(alloc: Global, shelf: u32, place: u64, word: Word) -> Result<String, AllocError>
    ensures { IfOk result (λ text. string_bytes text
        ≡ finding_line shelf (record { place = place; word = word })) }
{
    let word = word_text(word);
    format!(in alloc; "error 12 {shelf} {place} {word}\n")
}

// The line of the shelf at which audits ended, where that is no want of memory.
fn end_error(alloc: Global, end: AuditEnd) -> Result<String, AllocError>
    ensures { IfOk result (λ text. end_line end.shelf end.why ≡ Some (string_bytes text)) }
{
    let AuditEnd { shelf, why } = end;
    match why {
        AuditCause::Disk => disk_error(alloc, shelf),
        AuditCause::Damaged { place } => damage_error(alloc, shelf, place),
        AuditCause::Found { place, word } => finding_error(alloc, shelf, place, word),
        AuditCause::Memory => Err(AllocError),
    }
}

// The status of audits that ended for this cause.
fn end_status(why: AuditCause) -> Status
    ensures { result ≡ end_status why }
{
    match why {
        AuditCause::Disk => Status::Disk,
        AuditCause::Damaged { .. } => Status::Journal,
        AuditCause::Found { .. } => Status::Audit,
        AuditCause::Memory => Status::Memory,
    }
}

/// Tells at which shelf audits ended, and why.
pub fn tell_end<O: Sink>(alloc: Global, end: AuditEnd, output: &mut O) -> Status
    ensures tells { TellsEnd end.shelf end.why result
        (sinks_of (O.view output.old) (O.view output.new)) }
    ensures handed { HandsAllOn (O.view output.old) (O.view output.new) }
    ensures later { (O.view output.old).faults ≤ (O.view output.new).faults }
    ensures other { result ≢ Status.Done }
{
    match end_error(alloc, end) {
        Ok(text) => {
            write_or_drop(output, text.as_bytes());
            end_status(end.why)
        }
        Err(_) => no_memory(output),
    }
}

// The line of a feed that is not followed on, at this place of it.
fn feed_error(alloc: Global, place: u64, word: &str) -> Result<String, AllocError>
    ensures { IfOk result (λ text. string_bytes text ≡ feed_line place word.now) }
{
    format!(in alloc; "error 13 {place} {word}\n")
}

// Tells at which place of a feed it is not followed on, and why.
fn tell_feed<O: Sink>(alloc: Global, place: u64, word: &str, output: &mut O) -> Status
    ensures tells { TellsFeed (feed_line place word.now) result
        (sinks_of (O.view output.old) (O.view output.new)) }
    ensures handed { HandsAllOn (O.view output.old) (O.view output.new) }
    ensures later { (O.view output.old).faults ≤ (O.view output.new).faults }
    ensures other { result ≢ Status.Done }
{
    match feed_error(alloc, place, word) {
        Ok(text) => {
            write_or_drop(output, text.as_bytes());
            Status::Feed
        }
        Err(_) => no_memory(output),
    }
}

// Tells why a feed was not read on.
fn tell_feed_fault<O: Sink>(alloc: Global, fault: FeedFault, output: &mut O) -> Status
    ensures tells { TellsFeedFault fault result
        (sinks_of (O.view output.old) (O.view output.new)) }
    ensures handed { HandsAllOn (O.view output.old) (O.view output.new) }
    ensures later { (O.view output.old).faults ≤ (O.view output.new).faults }
    ensures other { result ≢ Status.Done }
{
    match fault {
        FeedFault::Head => tell_feed(alloc, 0, "head", output),
        FeedFault::Cut { place } => tell_feed(alloc, place, "cut", output),
        FeedFault::Long => tell_unread(InputFault::Long, output),
        FeedFault::Failed => tell_unread(InputFault::Failed, output),
        FeedFault::Memory => no_memory(output),
    }
}

/// Tells how following a feed ended.
pub fn tell_followed<O: Sink>(alloc: Global, shelf: u32, end: FollowEnd, output: &mut O) -> Status
    ensures tells { TellsFollowed shelf end result
        (sinks_of (O.view output.old) (O.view output.new)) }
    // Where a line could not be written, nothing more is.
    ensures handed { end ≢ FollowEnd.Unwritten →
        HandsAllOn (O.view output.old) (O.view output.new) }
    ensures later { (O.view output.old).faults ≤ (O.view output.new).faults }
    ensures done { HandsOnIfDone result (O.view output.new) }
{
    match end {
        FollowEnd::Held => hand_on(output),
        FollowEnd::Promoted => tell_feed(alloc, 0, "promoted", output),
        FollowEnd::Feed(fault) => tell_feed_fault(alloc, fault, output),
        FollowEnd::Other { place } => tell_feed(alloc, place, "other", output),
        FollowEnd::Record { place } => tell_feed(alloc, place, "record", output),
        FollowEnd::Full { len } => {
            let why = Reopen::Full { len };
            tell_unopened(alloc, OpenFault { shelf, why }, output)
        }
        FollowEnd::DiskFault => {
            let why = Reopen::Disk;
            tell_unopened(alloc, OpenFault { shelf, why }, output)
        }
        FollowEnd::Unwritten => Status::Write,
        FollowEnd::Memory => no_memory(output),
    }
}

// The line of a shelf, which followed and was promoted, or did not follow.
fn promoted_line(alloc: Global, shelf: u32, followed: bool) -> Result<String, AllocError>
    ensures { IfOk result (λ text. string_bytes text ≡ promoted_line shelf followed) }
{
    if followed {
        format!(in alloc; "shelf {shelf} promoted\n")
    } else {
        format!(in alloc; "shelf {shelf} leader\n")
    }
}

/// Tells of a shelf whether it followed and was promoted.
pub fn tell_promoted<O: Sink>(
    alloc: Global,
    shelf: u32,
    followed: bool,
    output: &mut O,
) -> Result<(), Status>
    ensures tells { TellsPromoted shelf followed result
        (sinks_of (O.view output.old) (O.view output.new)) }
    ensures hands { IfErr result (λ how. Hands how (O.view output.old) (O.view output.new)) }
    ensures later { (O.view output.old).faults ≤ (O.view output.new).faults }
{
    let Ok(text) = promoted_line(alloc, shelf, followed) else {
        return Err(no_memory(output));
    };
    match write_all(output, text.as_bytes()) {
        Ok(()) => Ok(()),
        Err(_) => Err(Status::Write),
    }
}

/// Tells what a serving came to: its counts, or why there are none.
pub fn tell_outcome<O: Sink>(
    alloc: Global,
    outcome: Result<Tally, ServeFault>,
    output: &mut O,
) -> Status
    ensures tells { TellsOutcome outcome result (sinks_of (O.view output.old) (O.view output.new)) }
    ensures hands { Hands result (O.view output.old) (O.view output.new) }
{
    match outcome {
        Ok(tally) => tell_tally(alloc, &tally, output),
        Err(ServeFault::Key) => {
            write_or_drop(output, b"error 14 key\n");
            Status::Key
        }
        Err(ServeFault::Shelf(fault)) => tell_unopened(alloc, fault, output),
        Err(ServeFault::Audit(end)) => tell_end(alloc, end, output),
        Err(ServeFault::Door) => {
            write_or_drop(output, b"error 9 door\n");
            Status::Door
        }
        Err(ServeFault::Memory) => no_memory(output),
    }
}
