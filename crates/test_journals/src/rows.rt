use crate::journals::{File, told_of_file};
use crate::records::told_of_body;
use script_nodes::Setup;
use setup_reader::script_of;
use std::alloc::{AllocError, Global};

/// The scripts of the rows so far.
#[derive(Drop)]
pub struct Rows {
    setup: Setup,
}

// Records between bars.
fn add_records(file: &mut File, alloc: Global, records: &str) -> Result<(), AllocError> {
    if !records.is_empty() {
        for words in records.split('|') {
            file.add_words(alloc, words)?;
        }
    }
    Ok(())
}

impl Rows {
    /// No scripts yet.
    pub fn new(alloc: Global) -> Rows {
        Rows {
            setup: Setup::new(Vec::new(alloc)),
        }
    }

    // One more script: its name and its text.
    fn add_script(&mut self, alloc: Global, rest: &str) -> Result<(), AllocError> {
        let (name, text) = rest.split_once(' ').unwrap_or((rest, ""));
        match script_of(alloc, name.as_bytes(), text.as_bytes())? {
            Some(script) => self.setup.push(script),
            None => Ok(()),
        }
    }

    // The file of the shelf that its first record tells, if it has one, and of the records after it.
    fn file(&self, alloc: Global, rest: &str) -> Result<File, AllocError> {
        let (shelf, records) = rest.split_once(" | ").unwrap_or((rest, ""));
        let mut file = File::new(alloc)?;
        if let Ok(shelf) = shelf.parse() {
            file.add_begin(alloc, shelf, &self.setup)?;
        }
        add_records(&mut file, alloc, records)?;
        Ok(file)
    }

    // What is written after a line: `setup` begins another setup, `script NAME TEXT` adds to it, `journal SHELF | WORDS | ..`
    // reads a journal, and `body WORDS` one record. Any other line says nothing.
    fn told(&mut self, alloc: Global, line: &str) -> Result<String, AllocError> {
        let (word, rest) = line.split_once(' ').unwrap_or((line, ""));
        match word {
            "setup" => self.setup = Setup::new(Vec::new(alloc)),
            "script" => self.add_script(alloc, rest)?,
            "journal" => return told_of_file(alloc, self.file(alloc, rest)?),
            "body" => return told_of_body(alloc, rest),
            _ => {}
        }
        Ok(String::new(alloc))
    }

    /// A line, and what is written after it.
    pub fn line(&mut self, alloc: Global, line: &str) -> Result<String, AllocError> {
        let told = self.told(alloc, line)?;
        format!(in alloc; "{line}\n{told}")
    }
}
