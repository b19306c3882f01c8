ghost use Rattle.std.specs.Prelude.{◌≡◌, IfOk, vec_len};

use std::alloc::{AllocError, AllocFailed, Global};
use std::sync::atomic::{AtomicU64, Ordering};

/// What a visit passes between its take and its publish.
pub trait Gate {
    /// Is called once in a visit, with the number that its take drew, while nothing of a shelf is held.
    fn pass(&self, number: u64);
}

/// A gate that does nothing.
#[derive(Clone, Copy, Debug, PartialEq, Eq)]
pub struct OpenGate;

impl Gate for OpenGate {
    fn pass(&self, _number: u64) {}
}

/// A gate that notes the numbers of those that pass it. Since those share it, no clause knows what it noted.
#[derive(Drop)]
pub struct NotingGate {
    numbers: Vec<AtomicU64>,
    count: AtomicU64,
}

impl NotingGate {
    /// A gate that none has passed, with room for so many numbers.
    pub fn new(alloc: Global, room: u32) -> Result<NotingGate, AllocFailed<AtomicU64>>
        ensures { IfOk result (λ gate. vec_len gate.numbers ≡ room) }
    {
        let mut numbers = Vec::new(alloc);
        for _ in 0..room {
            numbers.push(AtomicU64::new(0))?;
        }
        Ok(NotingGate {
            numbers,
            count: AtomicU64::new(0),
        })
    }

    /// How often it was passed.
    pub fn count(&self) -> u64 {
        self.count.load(Ordering::SeqCst)
    }

    /// The numbers of those that passed it, in their order, as far as there was room.
    pub fn noted(&self, alloc: Global) -> Result<Vec<u64>, AllocError> {
        let mut noted = Vec::new(alloc);
        for (_, number) in (0..self.count()).zip(self.numbers.iter()) {
            noted.push(number.load(Ordering::SeqCst))?;
        }
        Ok(noted)
    }
}

impl Gate for NotingGate {
    fn pass(&self, number: u64) {
        let place = self.count.fetch_add(1, Ordering::SeqCst) as usize;
        if place < self.numbers.len() {
            self.numbers[place].store(number, Ordering::SeqCst);
        }
    }
}
