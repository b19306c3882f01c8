ghost use Rattle.std.specs.Prelude.{◌≡◌, ℕ, Option, Some, None, IfSome};

use std::sync::atomic::{AtomicU64, Ordering};

/// A clock in seconds.
pub trait Clock {
    /// What it shows, where it tells it.
    ghost shows: { Self → Option ℕ };

    /// The seconds that it shows.
    fn now(&self) -> u64
        ensures { IfSome (shows self.now) (λ seconds. result ≡ seconds) };
}

/// A clock in memory, which shows what it is set to.
#[derive(Clone, Copy, Debug, PartialEq, Eq)]
pub struct SetClock {
    seconds: u64,
}

impl SetClock {
    /// A clock that is set to these seconds.
    pub fn new(seconds: u64) -> SetClock
        ensures { result.seconds ≡ seconds }
    {
        SetClock { seconds }
    }

    /// Sets the clock.
    pub fn set(&mut self, seconds: u64)
        ensures { self.new.seconds ≡ seconds }
    {
        self.seconds = seconds;
    }
}

impl Clock for SetClock {
    ghost shows = { λ clock. Some clock.seconds };

    fn now(&self) -> u64 {
        self.seconds
    }
}

/// A clock in memory that goes on by itself: each reading is so many seconds after the one before. Since readings share it,
/// no clause knows what it shows.
#[derive(Drop)]
pub struct TickingClock {
    next: AtomicU64,
    step: u64,
}

impl TickingClock {
    /// A clock whose first reading is `first`, and each later one `step` seconds after the one before.
    pub fn new(first: u64, step: u64) -> TickingClock
        ensures { result.step ≡ step }
    {
        TickingClock {
            next: AtomicU64::new(first),
            step,
        }
    }
}

impl Clock for TickingClock {
    ghost shows = { λ _. None };

    fn now(&self) -> u64 {
        self.next.fetch_add(self.step, Ordering::SeqCst)
    }
}
