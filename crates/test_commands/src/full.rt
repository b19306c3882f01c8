//! A run whose journal comes to its greatest length.
ghost use Rattle.std.specs.Prelude.{◌≡◌, IfOk, false};
ghost use Rattle.web_disk.specs.Repeated.{repeat_view};

use crate::outside::{FAIR, Machine, NARROW, PLAY, sink_of, source_of};
use crate::texts::{input_of, repeated};
use server_command::{NoPast, command};
use std::alloc::{AllocError, Global};
use std::test::Fail;
use web_disk::{Asked, Disk, Failures, Rack, RackFault, RepeatDisk};
use web_outside::{ListDoor, ListSeeds, OpenGate, SetClock, TextSink, TextSource};

const PAGES: &str = "(begin (send/suspend (lambda (u) \"a\")) (send/suspend (lambda (u) \"b\")))";

// How the journal of a shelf of this script begins: the header, and the record of the shelf's number and its scripts up to the
// length of the text, which stands after it.
const FIRST: &[u8] = &[
    75, 83, 87, 69, 66, 0, 0, 6, 1, 89, 0, 0, 0, 1, 0, 0, 0, 0, 1, 0, 0, 0, 1, 0, 0, 0, b's', 71,
    0, 0, 0,
];

// How a record of 1,048,576 bytes begins, its gate and length among them: segment 0 answered a page that is not there with a
// text of 1,048,533 characters of code 0, and ended with a last page, without effects.
const LONG: &[u8] = &[
    1, 251, 255, 15, 0, 3, 0, 0, 0, 0, 0, 0, 0, 0, 0, 0, 0, 0, 0, 0, 0, 0, 0, 0, 0, 0, 0, 0, 0, 0,
    3, 213, 255, 15, 0,
];

fn first_part(alloc: Global) -> Result<Vec<u8>, AllocError> {
    let mut first = FIRST.to_vec(alloc)?;
    first.extend_from_slice(PAGES.as_bytes())?;
    Ok(first)
}

fn long_record(alloc: Global) -> Result<Vec<u8>, AllocError> {
    let mut record = LONG.to_vec(alloc)?;
    record.resize(1_048_576, 0)?;
    Ok(record)
}

// A disk with nothing on it.
fn empty_disk(alloc: Global) -> RepeatDisk
    ensures { (repeat_view result).faults ≡ 0 }
{
    RepeatDisk::new(Vec::new(alloc), Vec::new(alloc), 0, Vec::new(alloc))
}

// A disk of the shelf, with 1,023 such records: it lacks 1,048,473 bytes of 2^30.
fn long_disk(alloc: Global) -> Result<RepeatDisk, AllocError>
    ensures { IfOk result (λ disk. (repeat_view disk).faults ≡ 0) }
{
    let first = first_part(alloc)?;
    let record = long_record(alloc)?;
    if first.len() != 102 || record.len() != 1_048_576 {
        return Err(AllocError);
    }
    let gate = vec![in alloc; 0; 1]?;
    Ok(RepeatDisk::new(first, record, 1_023, gate))
}

// The file of the shelf: nearly full where it was taken before, and else empty.
fn file_of(alloc: Global, taken: bool) -> Result<RepeatDisk, AllocError>
    ensures { IfOk result (λ disk. (repeat_view disk).faults ≡ 0) }
{
    if taken {
        long_disk(alloc)
    } else {
        Ok(empty_disk(alloc))
    }
}

// A rack of the three disks of shelf 0: the one of number 0 is empty when it is taken first, and nearly full when it is taken again; the
// other file and the root are always empty.
#[derive(Drop)]
struct FillingRack {
    taken: bool,
    file_is_lent: bool,
    other_is_lent: bool,
    root_is_lent: bool,
    faults: u64,
    failed: Failures,
    asked: Asked,
}

impl FillingRack {
    fn new() -> FillingRack
        ensures file { result.file_is_lent ≡ false }
        ensures other { result.other_is_lent ≡ false }
        ensures root { result.root_is_lent ≡ false }
    {
        FillingRack {
            taken: false,
            file_is_lent: false,
            other_is_lent: false,
            root_is_lent: false,
            faults: 0,
            failed: Failures::new(),
            asked: Asked::new(),
        }
    }
}

impl Rack<RepeatDisk> for FillingRack {
    ghost use Rattle.std.specs.Prelude.{false, ◌==◌, ◌&&◌, ◌||◌};
    ghost use Rattle.web_disk.specs.Asked.{asked_in};
    ghost use Rattle.web_disk.specs.Failures.{failed_in};

    ghost tells = { false };

    // Nothing is told of what a disk may hold.
    ghost view = { λ rack. record {
      holds = λ n image. ⊥;
      out = λ n. (rack.file_is_lent && (n == 0))
          || ((rack.other_is_lent && (n == 16)) || (rack.root_is_lent && (n == 32)));
      faults = rack.faults;
      failed = λ n. failed_in rack.failed n;
      asked = asked_in rack.asked;
    } };

    fn faults(&self) -> u64 {
        self.faults
    }

    fn take(
        &mut self,
        alloc: Global,
        _directory: &str,
        number: u32,
    ) -> Result<RepeatDisk, RackFault> {
        self.asked.note(number);
        if number == 0 && !self.file_is_lent {
            let Ok(disk) = file_of(alloc, self.taken) else {
                return Err(RackFault::Memory);
            };
            self.taken = true;
            self.file_is_lent = true;
            return Ok(disk);
        }
        if number == 16 && !self.other_is_lent {
            self.other_is_lent = true;
            return Ok(empty_disk(alloc));
        }
        if number == 32 && !self.root_is_lent {
            self.root_is_lent = true;
            return Ok(empty_disk(alloc));
        }
        Err(RackFault::Memory)
    }

    fn give(&mut self, number: u32, disk: RepeatDisk) {
        let faults = disk.faults();
        self.faults = self.faults.saturating_add(faults);
        self.failed.count(number, faults);
        if number == 0 {
            self.file_is_lent = false;
        } else if number == 16 {
            self.other_is_lent = false;
        } else if number == 32 {
            self.root_is_lent = false;
        }
    }
}

// The status that a run over such a rack ends with.
fn status_of<R: Machine>(rt: &R, source: &mut TextSource, sink: &mut TextSink) -> u8 {
    let alloc = rt.alloc();
    let mut rack = FillingRack::new();
    let mut door = ListDoor::new(alloc, 0, Vec::new(alloc), Vec::new(alloc));
    let mut seeds = ListSeeds::new(Vec::new(alloc));
    command(
        rt,
        alloc,
        PLAY,
        source,
        sink,
        &mut rack,
        &mut door,
        &SetClock::new(0),
        &mut seeds,
        &OpenGate,
        &mut NoPast,
    )
}

// Whether such a run of this input ends well and writes this.
fn prints<R: Machine>(rt: &R, input: &str, text: &str) -> Result<bool, Fail> {
    let alloc = rt.alloc();
    let mut source = source_of(alloc, input.as_bytes(), &FAIR)?;
    let mut sink = sink_of(alloc, &NARROW)?;
    let status = status_of(rt, &mut source, &mut sink);
    Ok(status == 0 && sink.bytes() == text.as_bytes())
}

// A visit whose record has a text of so many zeros, and then one with a shorter text.
fn full_steps(alloc: Global) -> Result<String, Fail> {
    let steps = repeated(
        alloc,
        "crash 0\nget 0 /servlets/s\nget 0 /servlets/s;0*1*1*0000000000000000?n=",
        "0",
        1_048_400,
        "\nget 0 /servlets/s;0*1*1*0000000000000000?n=1\n",
    )?;
    input_of(alloc, ("s", PAGES), steps.as_str())
}

// What these visits print.
const PRINTED: &str = "shelf 0 live 0\n0 200 1\na\n0 503 journal-full\n0 200 1\nb\n";

// Whether they do.
fn takes_what_fits<R: Machine>(rt: &R) -> Result<bool, Fail> {
    let input = full_steps(rt.alloc())?;
    prints(rt, input.as_str(), PRINTED)
}

// After the start the journal lacks 1,048,397 bytes of its greatest length: the first answer has a record of more.
#[test]
fn a_full_journal_takes_what_still_fits(rt: HostRuntime) -> Result<(), Fail> {
    assert!(rt; takes_what_fits(&rt)?);
    Ok(())
}
