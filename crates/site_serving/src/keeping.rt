//! What takes the past of a serving.
ghost use Rattle.std.specs.Prelude.{List, Option, None};
ghost use Rattle.web_outside.specs.Porches.{GainsLast};
ghost use Rattle.site_serving.specs.Kept.{Kept, kept_in};

use ghost_history::History;
use request_workers::Tally;
use site::KeptEntry;
use std::snapshot::Snapshot;

/// What takes the past of a serving: a history of each shelf and a tally of each worker, both in their order.
pub trait Past {
    /// What it was given, in the order of the calls, where it tells that.
    ghost told: { Self → Option (List Kept) };

    /// Is called once, when the workers of a serving have ended. It takes no memory.
    fn keep(&mut self, histories: Vec<History<KeptEntry>>, tallies: Vec<Tally>)
        ensures { GainsLast (told self.old) (told self.new) (kept_in histories tallies) };
}

/// A past that nobody asks for: what it is given is dropped.
#[derive(Clone, Copy, Debug, PartialEq, Eq)]
pub struct NoPast;

impl Past for NoPast {
    ghost told = { λ _. None };

    fn keep(&mut self, _histories: Vec<History<KeptEntry>>, _tallies: Vec<Tally>) {}
}
