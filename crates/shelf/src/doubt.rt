ghost use Rattle.std.specs.Prelude.{◌≡◌, option_map};

use book_recovery::books::Change;
use book_visits::Prepared;

/// Work on the journal in which the disk failed.
#[derive(Drop)]
pub enum Work {
    /// The change of a visit was being recorded.
    Visits(Change),
    /// It was being recorded that time went on to this tick, in seconds.
    Sweeps(u64),
    /// Its file was being compacted.
    Compacts,
}

/// What may have happened, since the disk failed in it: the shelf is down until it is opened again.
#[derive(Drop)]
pub struct Doubt {
    /// How often a call of the disk had failed then.
    pub(crate) count: u64,
    pub(crate) work: Work,
}

impl Doubt {
    ghost use Rattle.shelf.specs.Views.{doubt_of, doubt_by};

    // What was prepared for a visit may have happened, if it changes the book.
    pub(crate) fn of_visit(count: u64, prepared: Prepared) -> Option<Doubt>
        ensures { option_map doubt_of result ≡ doubt_by count prepared.change }
    {
        let change = prepared.change;
        let change = change?;
        Some(Doubt {
            count,
            work: Work::Visits(change),
        })
    }
}
