//! The stage of `play`, which is shelves on the disks of a rack and the tickets of its workers: for the command.
#![tactic(auto)]

ghost use Rattle.play_desk.specs.Laws.{TranscriptsAreRuns};

mod answer;
mod crashing;
mod desk;
mod desk_disks;
mod editing;
mod opening;
mod staff;

pub use answer::answer_to;
pub use desk::Desk;
pub use desk_disks::open_desk;
pub use opening::{OpenFault, why_not};
pub use staff::segment_of;

/// The printed transcript of lines is the print of the replies of the runs of events that the lines are, and the last
/// books are those of these runs.
pub fn transcripts_are_runs()
    ensures { TranscriptsAreRuns }
{}
