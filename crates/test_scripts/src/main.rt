//! Answers rows of scripts, texts, values and states, each written back with its answer: for the gate, which compares.
#![tactic(auto)]

mod differences;
mod first;
mod kept;
mod read;
mod rows;
mod runs;
mod states;
mod syntax;
mod text;
mod told;
mod twins;
mod values;

use std::io;
use std::io::{BufRead, BufReader, BufWriter, Write};

fn main(rt: HostRuntime) -> io::Result<()> {
    let alloc = rt.alloc();
    let mut output = BufWriter::new(alloc, io::writer(&rt))?;
    for line in BufReader::new(alloc, rt.reader())?.lines(alloc) {
        let answered = rows::answered(alloc, line?.as_str())?;
        output.write_all(answered.as_bytes())?;
    }
    output.flush()
}
