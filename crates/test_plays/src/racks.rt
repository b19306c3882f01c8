ghost use Rattle.std.specs.Prelude.{◌≡◌, ℕ, false, IfOk};
ghost use Rattle.web_disk.specs.Racks.{is_lent};

use crate::told::Told;
use std::alloc::{AllocError, Global};
use web_disk::{MemoryDisk, MemoryRack, Wreck};

// Three disks for each shelf that there may be.
const DISKS: u32 = 48;

// What a line says of the disk of a number.
#[derive(Drop)]
struct Word {
    disk: u32,
    numbers: Vec<u64>,
}

/// What a run finds in its rack, whose disks are empty and never fail but where lines say so.
#[derive(Drop)]
pub struct RackPlan {
    // The bytes of disks.
    held: Vec<Word>,
    // The calls of disks that fail, the first being 0.
    failing: Vec<Word>,
    // The takes that fail, the first being 0.
    takes: Vec<u64>,
    // What is after a crash at each place that was written since the last sync; none where it has what was written.
    lost: Option<u8>,
    // The disks whose bytes are written after the run.
    shown: Vec<u32>,
}

/// The decimal numbers of a line; a word that is none is left out.
pub fn numbers_of(alloc: Global, text: &str) -> Result<Vec<u64>, AllocError> {
    let mut numbers = Vec::new(alloc);
    for word in text.split_whitespace() {
        if let Ok(number) = word.parse() {
            numbers.push(number)?;
        }
    }
    Ok(numbers)
}

// The bytes of a line, each of two hexadecimal digits.
fn bytes_of(alloc: Global, text: &str) -> Result<Vec<u64>, AllocError> {
    let mut bytes = Vec::new(alloc);
    for word in text.split_whitespace() {
        bytes.push(u64::from_str_radix(word, 16).unwrap_or(0))?;
    }
    Ok(bytes)
}

// What all these words say of the disk of a number.
fn told_of(alloc: Global, words: &[Word], disk: u32) -> Result<Vec<u64>, AllocError> {
    let mut numbers = Vec::new(alloc);
    for word in words {
        if word.disk == disk {
            numbers.extend_from_slice(&word.numbers)?;
        }
    }
    Ok(numbers)
}

impl RackPlan {
    /// All disks are empty, and nothing fails or is lost.
    pub fn new(alloc: Global) -> RackPlan {
        RackPlan {
            held: Vec::new(alloc),
            failing: Vec::new(alloc),
            takes: Vec::new(alloc),
            lost: None,
            shown: Vec::new(alloc),
        }
    }

    /// Takes a line that says something of disks: `holds DISK BYTE ..`, `fails DISK CALL ..`, `refuses TAKE ..`,
    /// `loses BYTE` or `shows DISK`. Any other line says nothing.
    pub fn line(&mut self, alloc: Global, word: &str, rest: &str) -> Result<(), AllocError> {
        let (first, others) = rest.split_once(' ').unwrap_or((rest, ""));
        let disk = first.parse().unwrap_or(0);
        match word {
            "holds" => {
                let numbers = bytes_of(alloc, others)?;
                self.held.push(Word { disk, numbers })?;
            }
            "fails" => {
                let numbers = numbers_of(alloc, others)?;
                self.failing.push(Word { disk, numbers })?;
            }
            "refuses" => self.takes = numbers_of(alloc, rest)?,
            "loses" => self.lost = first.parse().ok(),
            "shows" => self.shown.push(disk)?,
            _ => {}
        }
        Ok(())
    }

    // The disk of a number.
    fn disk(&self, alloc: Global, number: u32) -> Result<MemoryDisk, AllocError> {
        let mut bytes = Vec::new(alloc);
        for byte in told_of(alloc, &self.held, number)? {
            bytes.push((byte & 255) as u8)?;
        }
        let failing = told_of(alloc, &self.failing, number)?;
        MemoryDisk::new(alloc, bytes, failing)
    }

    fn wreck(&self) -> Wreck {
        match self.lost {
            None => Wreck {
                reached: u64::MAX,
                fill: 0,
                short: false,
            },
            Some(fill) => Wreck {
                reached: 0,
                fill,
                short: false,
            },
        }
    }

    /// The rack, with all its disks in it.
    pub fn rack(&self, alloc: Global) -> Result<MemoryRack, AllocError>
        ensures { IfOk result (λ rack. (n : ℕ) → is_lent rack n ≡ false) }
    {
        let mut rack = MemoryRack::new(alloc, self.wreck(), self.takes.to_vec(alloc)?);
        'disks: for number in 0..DISKS {
            rack.add(self.disk(alloc, number)?)?;
        }
        Ok(rack)
    }

    /// Tells the bytes of the disks that are to be shown, a line for each.
    pub fn tell_shown(&self, alloc: Global, rack: &MemoryRack, told: &mut Told) {
        for number in &self.shown {
            let number = *number;
            let bytes = rack.bytes(number).unwrap_or(&[]);
            let count = bytes.len();
            told.put(format!(in alloc; "disk {number} has {count}:"));
            for byte in bytes {
                told.put(format!(in alloc; " {byte:02x}"));
            }
            told.add(b"\n");
        }
    }
}
