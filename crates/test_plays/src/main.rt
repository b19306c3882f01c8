//! Plays rows of scripts and runs of the command, each written back with what the command wrote: for the gate, which compares.
//!
//! What stands before a run says how its disks are, which of them are shown after it, and what else comes to it or fails.
#![tactic(auto)]

mod outside;
mod plans;
mod racks;
mod rows;
mod steps;
mod streets;
mod told;
mod transcript;

use rows::Rows;
use std::io;
use std::io::{BufRead, BufReader, BufWriter, Write};

fn main(rt: HostRuntime) -> io::Result<()> {
    let alloc = rt.alloc();
    let mut output = BufWriter::new(alloc, io::writer(&rt))?;
    let mut rows = Rows::new(alloc);
    for line in BufReader::new(alloc, rt.reader())?.lines(alloc) {
        let told = rows.line(&rt, alloc, line?.as_str())?;
        output.write_all(told.as_slice())?;
    }
    output.flush()
}
