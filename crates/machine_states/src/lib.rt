//! The machine of stored states, that it comes to what a script means, and what is kept of a script at a page: for the engine, the book and the codec.
#![tactic(auto)]

ghost use Rattle.machine_states.specs.Laws.{ResumeEqualsReplay, AStartIsARun, EachPageHasOneState, APageIsInsideItsFrames, TheFirstStopIsTheStop, NoCellIsUnbound};
ghost use Rattle.machine_states.specs.Fits.{EachStateFits};
ghost use Rattle.machine_states.specs.Visits.{AVisitGoesOn};

mod frame;
mod segment;

pub use frame::{Frame, Suspended};
pub use segment::{Origin, Outcome, Segment};

/// What was kept of a page, and goes on with an answer, comes to what its script comes to when it is run again from its
/// start over the answers to the page's own ancestors, and then this one; and the steps that it takes do not depend on how
/// many these are.
pub fn resume_equals_replay()
    ensures { ResumeEqualsReplay }
{}

/// A start comes to what its script comes to.
pub fn a_start_is_a_run()
    ensures { AStartIsARun }
{}

/// Of each page that waits for an answer one state is kept.
pub fn each_page_has_one_state()
    ensures { EachPageHasOneState }
{}

/// The transactions that a page is inside are those of its state's frames.
pub fn a_page_is_inside_its_frames()
    ensures { APageIsInsideItsFrames }
{}

/// Each state that is kept fits its script: the frames name the way from its first node to one that sends a page.
pub fn each_state_fits()
    ensures { EachStateFits }
{}

/// A visit that goes on from the state of the page that it answers comes to what the definitions say of it.
pub fn a_visit_goes_on()
    ensures { AVisitGoesOn }
{}

/// Where a machine stops first is where it stops.
pub fn the_first_stop_is_the_stop()
    ensures { TheFirstStopIsTheStop }
{}

/// No web cell that a page binds is unbound after it.
pub fn no_cell_is_unbound()
    ensures { NoCellIsUnbound }
{}
