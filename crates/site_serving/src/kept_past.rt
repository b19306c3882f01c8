//! A past that can be asked for.
use crate::keeping::Past;
use ghost_history::History;
use request_workers::Tally;
use site::KeptEntry;
use std::mem;
use std::snapshot::Snapshot;

/// What was kept of a serving, as clauses see it. It has no bytes.
#[derive(Drop)]
pub struct KeptServing {
    pub histories: Snapshot<Vec<History<KeptEntry>>>,
    pub tallies: Snapshot<Vec<Tally>>,
}

/// A past that tells what it was given: clauses see that of each serving, and a program that of the last one.
#[derive(Drop)]
pub struct KeptPast {
    servings: Snapshot<ghost_history::Past<KeptServing>>,
    last: Option<(Vec<History<KeptEntry>>, Vec<Tally>)>,
}

impl KeptPast {
    ghost use Rattle.std.specs.Prelude.{◌≡◌, [], Some, None, MatchOption};
    ghost use Rattle.site_serving.specs.Kept.{AreLastHistories, AreLastTallies, last_in, told_by};

    /// A past that was given nothing yet.
    pub fn new() -> KeptPast
        ensures told { told_by result ≡ Some [] }
        ensures last { last_in result ≡ None }
    {
        KeptPast {
            servings: Snapshot::of(&ghost_history::Past::Nothing),
            last: None,
        }
    }

    /// The tallies of the last serving that was kept, one for each worker; none where no serving was.
    pub fn tallies(&self) -> Option<&[Tally]>
        ensures { MatchOption result (last_in self.now ≡ None)
            (λ ts. AreLastTallies self.now ts.now) }
    {
        match &self.last {
            Some((_, tallies)) => Some(tallies.as_slice()),
            None => None,
        }
    }

    /// The histories of that serving, one for each shelf. A program can tell how many entries each has.
    pub fn histories(&self) -> Option<&[History<KeptEntry>]>
        ensures { MatchOption result (last_in self.now ≡ None)
            (λ hs. AreLastHistories self.now hs.now) }
    {
        match &self.last {
            Some((histories, _)) => Some(histories.as_slice()),
            None => None,
        }
    }
}

impl Past for KeptPast {
    ghost use Rattle.std.specs.Prelude.{◌≡◌, Some};
    ghost use Rattle.web_outside.specs.Porches.{GainsLast};
    ghost use Rattle.site_serving.specs.Kept.{kept_in, last_in, told_by};

    ghost told = { told_by };

    fn keep(&mut self, histories: Vec<History<KeptEntry>>, tallies: Vec<Tally>)
        ensures told { GainsLast (told_by self.old) (told_by self.new) (kept_in histories tallies) }
        ensures last { last_in self.new ≡ Some (kept_in histories tallies) }
    {
        let before = mem::replace(
            &mut self.servings,
            Snapshot::of(&ghost_history::Past::Nothing),
        );
        let entry = KeptServing {
            histories: Snapshot::of(&histories),
            tallies: Snapshot::of(&tallies),
        };
        self.servings = Snapshot::of(&ghost_history::Past::Then { before, entry });
        self.last = Some((histories, tallies));
    }
}
