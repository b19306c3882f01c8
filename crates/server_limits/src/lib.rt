//! The limits of the options, and of the setup of a server, each written once: for the command line, the definitions and whoever keeps to them.
#![tactic(auto)]

ghost use Rattle.std.specs.Prelude.{◌≡◌};
ghost use Rattle.server_limits.specs.Limits.{most_connections, most_fuel, most_instances, most_life, most_pages, most_requests, most_shelves};
ghost use Rattle.server_limits.specs.Counts.{most_scripts, most_workers};

/// The most shelves of a server.
pub const MOST_SHELVES: u32 = 16;

/// The most that a segment may be allowed to cost.
pub const MOST_FUEL: u64 = 10_000_000;

/// The longest life of a page, in seconds.
pub const MOST_LIFE: u64 = 2_147_483_648;

/// The most live instances that a shelf may be allowed.
pub const MOST_INSTANCES: u64 = 4_096;

/// The most pages that an instance may be allowed.
pub const MOST_PAGES: u64 = 1_024;

/// The most links that a worker may be told to serve.
pub const MOST_CONNECTIONS: u64 = 1_000_000;

/// The most requests that a link may be told to carry.
pub const MOST_REQUESTS: u32 = 1_000;

/// The most workers of a server.
pub const MOST_WORKERS: u32 = 16;

/// The most scripts of a setup.
pub const MOST_SCRIPTS: usize = 15;

/// The constants are the limits of the definitions.
pub fn limits_are_as_defined()
    ensures shelves { MOST_SHELVES ≡ most_shelves }
    ensures fuel { MOST_FUEL ≡ most_fuel }
    ensures life { MOST_LIFE ≡ most_life }
    ensures instances { MOST_INSTANCES ≡ most_instances }
    ensures pages { MOST_PAGES ≡ most_pages }
    ensures connections { MOST_CONNECTIONS ≡ most_connections }
    ensures requests { MOST_REQUESTS ≡ most_requests }
    ensures workers { MOST_WORKERS ≡ most_workers }
    ensures scripts { MOST_SCRIPTS ≡ most_scripts }
{}
