//! The program: it hands the machine's words, streams, disks, sockets, clock and randomness to `command`.
#![tactic(auto)]

ghost use Rattle.std.specs.Prelude.{◌≡◌, codes};
ghost use Rattle.web_outside.specs.Pieces.{HandsAllOn};
ghost use Rattle.server_command.specs.Output.{sinks_of, PrintsTo};

use file_disk::ServedRack;
use machine_outside::{MachineClock, MachineSeeds, Patience, Reading, SocketDoor, Writing};
use server_command::{NoPast, command};
use std::alloc::AllocError;
use std::fs::{File, Files};
use std::io::ErrorKind;
use std::net::{Net, TcpListener, TcpStream};
use std::process::ExitCode;
use std::rt::Env;
use std::sync::Wait;
use std::thread::Threads;
use std::time::{Clock, Duration};
use std::{env, io};
use web_outside::{OpenGate, Sink, write_or_drop};

const OUT_OF_MEMORY: u8 = 10;

// How long a head, a body and a reply may take each, in seconds.
const PATIENCE: u64 = 30;

// How long a link may be idle between two requests, in seconds.
const IDLE: u64 = 5;

// How long one that has not asked yet keeps its worker from others that wait, in seconds.
const GRACE: u64 = 1;

// The process's words; none where one of them is no text, since no command has such a word.
fn words_of<R: Env + AllocGlobal>(rt: &R) -> Result<Vec<String>, AllocError> {
    let mut words = Vec::new(rt.alloc());
    match env::args(rt) {
        Ok(args) => {
            for arg in args {
                words.push(arg)?;
            }
        }
        Err(fault) if fault.kind() == ErrorKind::OutOfMemory => return Err(AllocError),
        Err(_) => {}
    }
    Ok(words)
}

// Runs the command over the real streams.
fn run<R>(rt: &R) -> u8
where
    R: Env
        + Input
        + Print
        + Eprint
        + AllocGlobal
        + Files<File = File>
        + Clock
        + Net<Listener = TcpListener, Stream = TcpStream>
        + Threads
        + Wait
        + Sync,
{
    let alloc = rt.alloc();
    let mut input = Reading {
        inner: rt.reader(),
        count: 0,
    };
    let mut output = Writing {
        inner: io::writer(rt),
        count: 0,
    };
    let Ok(words) = words_of(rt) else {
        return out_of_memory(&mut output);
    };
    let mut texts = Vec::new(alloc);
    for word in &words {
        if texts.push(word.as_str()).is_err() {
            return out_of_memory(&mut output);
        }
    }
    let mut rack = ServedRack::new(rt, alloc);
    let patience = Duration::from_secs(PATIENCE);
    let mut door = SocketDoor {
        rt,
        patience: Patience {
            head: patience,
            body: patience,
            reply: patience,
            idle: Duration::from_secs(IDLE),
            grace: Duration::from_secs(GRACE),
        },
        faults: 0,
    };
    let clock = MachineClock { rt };
    let mut seeds = MachineSeeds { rt, faults: 0 };
    command(
        rt,
        alloc,
        &texts,
        &mut input,
        &mut output,
        &mut rack,
        &mut door,
        &clock,
        &mut seeds,
        &OpenGate,
        &mut NoPast,
    )
}

// Says that memory ran out before the command began, and answers the status of that.
fn out_of_memory<O: Sink>(output: &mut O) -> u8
    ensures status { result ≡ 10 }
    ensures line { PrintsTo (sinks_of (O.view output.old) (O.view output.new)) (codes "error 10 memory\n") }
    ensures handed { HandsAllOn (O.view output.old) (O.view output.new) }
{
    write_or_drop(output, b"error 10 memory\n");
    OUT_OF_MEMORY
}

fn main(rt: HostRuntime) -> ExitCode {
    ExitCode::from(run(&rt))
}
