//! Reads rows of journals, each written back with what the journal makes of shelf 7: for the gate, which compares.
#![tactic(auto)]

mod journals;
mod records;
mod rows;
mod words;

use rows::Rows;
use std::io;
use std::io::{BufRead, BufReader, BufWriter, Write};

fn main(rt: HostRuntime) -> io::Result<()> {
    let alloc = rt.alloc();
    let mut output = BufWriter::new(alloc, io::writer(&rt))?;
    let mut rows = Rows::new(alloc);
    for line in BufReader::new(alloc, rt.reader())?.lines(alloc) {
        let told = rows.line(alloc, line?.as_str())?;
        output.write_all(told.as_bytes())?;
    }
    output.flush()
}
