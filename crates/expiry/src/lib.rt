//! Until when a page can be answered: for the book.
#![tactic(auto)]

ghost use Rattle.std.specs.Prelude.{◌≡◌, ◌+◌, ◌<◌, ◌≤◌, nat_le};
ghost use Rattle.std.specs.List.{list_all};

use server_limits::MOST_LIFE;

/// The last tick, in seconds: each clock is below it.
pub const TICKS: u64 = 4_611_686_018_427_387_904;

/// The longest life of a page, in seconds.
pub const LONGEST_LIFE: u64 = MOST_LIFE;

/// The deadline of a page that is shown at this clock and lives so long, all in seconds.
pub fn deadline(clock: u64, life: u64) -> u64
    requires clock { clock < TICKS }
    requires life { life ≤ LONGEST_LIFE }
    ensures { result ≡ clock + life }
{
    clock + life
}

/// Whether the clock is at or past a deadline.
pub fn expired(clock: u64, deadline: u64) -> bool
    ensures { result ≡ nat_le deadline clock }
{
    deadline <= clock
}

/// Whether the clock is at or past each of these deadlines.
pub fn all_expired(clock: u64, deadlines: &[u64]) -> bool
    ensures { result ≡ list_all (λ deadline. nat_le deadline clock) deadlines.now }
{
    deadlines.iter().all(|deadline| expired(clock, *deadline))
}
