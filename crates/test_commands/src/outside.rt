//! An outside in memory, which fails where it is told to, and what a command comes to over it.
ghost use Rattle.std.specs.Prelude.{◌≡◌, length};

use file_disk::ServedRack;
use server_command::{NoPast, command};
use std::alloc::Global;
use std::fs::{self, File, Files};
use std::sync::Wait;
use std::test::Fail;
use std::thread::Threads;
use std::time::Clock;
use web_outside::{ListDoor, ListSeeds, OpenGate, SetClock, TextSink, TextSource};

/// What a command is run on: it may start threads, and tells of them and of files on the standard error.
pub trait Machine: AllocGlobal + Clock + Eprint + Files<File = File> + Sync + Threads + Wait {}

impl<R: AllocGlobal + Clock + Eprint + Files<File = File> + Sync + Threads + Wait> Machine for R {}

/// How the outside treats a run: which reads and writes fail, the greatest piece of a read, the room of the output, and
/// whether its flushes fail.
#[derive(Clone, Copy)]
pub struct Outside<'a> {
    pub reads: &'a [u64],
    pub greatest: usize,
    pub writes: &'a [u64],
    pub room: usize,
    pub stuck: bool,
}

/// An outside that never fails.
pub const FAIR: Outside<'static> = Outside {
    reads: &[],
    greatest: 4096,
    writes: &[],
    room: 2_000_000,
    stuck: false,
};

/// An input whose first read fails.
pub const UNREAD: Outside<'static> = Outside {
    reads: &[0],
    ..FAIR
};

/// An output of room for 1,000 bytes.
pub const NARROW: Outside<'static> = Outside {
    room: 1_000,
    ..FAIR
};

/// An output that takes no byte.
pub const FULL: Outside<'static> = Outside { room: 0, ..FAIR };

/// An output that hands nothing on.
pub const STUCK: Outside<'static> = Outside {
    stuck: true,
    ..FAIR
};

/// Words without options.
pub const PLAY: &[&str] = &["hovgyelit", "play"];

/// Words without options.
pub const CHECK: &[&str] = &["hovgyelit", "check"];

/// The status, what was written, and whether all of that was handed on.
#[derive(Drop)]
pub struct Outcome {
    pub status: u8,
    pub text: String,
    pub handed: bool,
}

// The status that a command with these words ends with, over this input and this output.
fn status_of<R: Machine>(
    rt: &R,
    words: &[&str],
    source: &mut TextSource,
    sink: &mut TextSink,
) -> u8 {
    let alloc = rt.alloc();
    let mut rack = ServedRack::new(rt, alloc);
    let mut door = ListDoor::new(alloc, 0, Vec::new(alloc), Vec::new(alloc));
    let mut seeds = ListSeeds::new(Vec::new(alloc));
    command(
        rt,
        alloc,
        words,
        source,
        sink,
        &mut rack,
        &mut door,
        &SetClock::new(0),
        &mut seeds,
        &OpenGate,
        &mut NoPast,
    )
}

/// An input of these bytes, of a run that is treated so.
pub fn source_of(alloc: Global, input: &[u8], outside: &Outside) -> Result<TextSource, Fail> {
    let reads = outside.reads.to_vec(alloc)?;
    let input = input.to_vec(alloc)?;
    Ok(TextSource::new(input, reads, outside.greatest.max(1)))
}

/// The output of a run that is treated so.
pub fn sink_of(alloc: Global, outside: &Outside) -> Result<TextSink, Fail> {
    let mut sink = TextSink::new(alloc, outside.room, outside.writes.to_vec(alloc)?)?;
    if outside.stuck {
        sink.stick();
    }
    Ok(sink)
}

/// The status, what was written, and whether all of that was handed on.
#[derive(Drop)]
pub struct Written {
    pub status: u8,
    pub bytes: Vec<u8>,
    pub handed: bool,
}

// What a run wrote that ended with this status.
fn written_to(alloc: Global, status: u8, sink: &TextSink) -> Result<Written, Fail> {
    let handed = sink.handed() == sink.bytes();
    let bytes = sink.bytes().to_vec(alloc)?;
    Ok(Written {
        status,
        bytes,
        handed,
    })
}

/// What a command with these words and this input comes to, whose output may be no text.
pub fn outcome_of<R: Machine>(
    rt: &R,
    words: &[&str],
    input: &[u8],
    outside: &Outside,
) -> Result<Written, Fail> {
    let alloc = rt.alloc();
    let mut source = source_of(alloc, input, outside)?;
    let mut sink = sink_of(alloc, outside)?;
    let status = status_of(rt, words, &mut source, &mut sink);
    written_to(alloc, status, &sink)
}

/// What a command with these words and this input comes to.
pub fn ran<R: Machine>(
    rt: &R,
    words: &[&str],
    input: &[u8],
    outside: &Outside,
) -> Result<Outcome, Fail> {
    let Written {
        status,
        bytes,
        handed,
    } = outcome_of(rt, words, input, outside)?;
    Ok(Outcome {
        status,
        text: String::from_utf8(bytes)?,
        handed,
    })
}

/// The status that a command with these words and this input ends with.
pub fn status_over<R: Machine>(
    rt: &R,
    words: &[&str],
    input: &[u8],
    outside: &Outside,
) -> Result<u8, Fail> {
    let outcome = ran(rt, words, input, outside)?;
    Ok(outcome.status)
}

/// Whether a run ends with this status and has written this text; where nothing fails, all of it is handed on.
pub fn comes_to<R: Machine>(
    rt: &R,
    words: &[&str],
    input: &[u8],
    outside: &Outside,
    told: (u8, &str),
) -> Result<bool, Fail> {
    let outcome = ran(rt, words, input, outside)?;
    let is_handed = outcome.handed || outcome.status != 0;
    Ok((outcome.status, outcome.text.as_str()) == told && is_handed)
}

/// Empties a folder.
pub fn emptied<R: Machine>(rt: &R, folder: &str) -> Result<(), Fail> {
    if fs::exists(rt, folder)? {
        fs::remove_dir_all(rt, folder)?;
    }
    Ok(())
}

/// Whether these bytes stand in a file, and nothing else.
pub fn stands_in<R: Machine>(rt: &R, path: &str, bytes: &[u8]) -> Result<bool, Fail> {
    let held = fs::read(rt, path)?;
    Ok(held.as_slice() == bytes)
}

/// Puts as many other bytes in the place of these, wherever they stand in a file.
pub fn overwrite<R: Machine>(rt: &R, path: &str, old: &[u8], new: &[u8]) -> Result<(), Fail>
    requires { length new.now ≡ length old.now }
{
    let mut bytes = fs::read(rt, path)?;
    for place in 0..bytes.len() {
        if bytes[place..].starts_with(old) {
            bytes[place..place + old.len()].copy_from_slice(new);
        }
    }
    fs::write(rt, path, bytes.as_slice())?;
    Ok(())
}
