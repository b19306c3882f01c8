//! What is kept of a script at a page as bytes, by itself or as a delta: for the book and for records.
#![tactic(auto)]

ghost use Rattle.frame_codec.specs.Laws.{AreStatesExact, EachKeptIsStored};
ghost use Rattle.frame_codec.specs.Deltas.{DeltasAreOne, EachDeltaHasBytes};
ghost use Rattle.frame_codec.specs.Difference.{DifferencesAreComputed, DifferencesAreExact};
ghost use Rattle.frame_codec.specs.Forms.{FormsAreExact};
ghost use Rattle.frame_codec.specs.Fronts.{AreFrontsRead, FrontsJoin};

mod cut;
mod delta_bytes;
mod difference;
mod fit;
mod forms;
mod front_bytes;
mod joined;
mod need;
mod parted;
mod read;
mod shared;
mod size;
mod spelled;
mod state;
mod write;

pub use delta_bytes::{decode_delta, is_delta_spelled, is_stored, spell_delta};
pub use difference::Delta;
pub use forms::decode_form;
pub use front_bytes::{read_delta_front, read_front};
pub use joined::{copied_front, delta, join};
pub use machine_states::{Origin, Suspended, each_page_has_one_state};
pub use need::Need;
pub use parted::{ALONE, BEHIND, Parted};
pub use script_nodes::Script;
pub use shared::{same_values, shared_frames};
pub use spelled::is_spelled;
pub use state::decode;
pub use write::{encode, spell_state};

/// What is written is read back, and what is read is spelled so and fits; no spelling is the front of another one.
pub fn states_are_exact()
    ensures { AreStatesExact }
{}

/// What is kept of a script at a page fits it, with its bindings of web cells: where it has a spelling, it is read back.
pub fn what_is_kept_is_stored()
    ensures { EachKeptIsStored }
{}

/// A state has one difference from its parent.
pub fn deltas_are_one()
    ensures { DeltasAreOne }
{}

/// It is the one that is computed, with which the parent's state is the state again.
pub fn differences_are_computed()
    ensures { DifferencesAreComputed }
{}

/// What is written of a difference is read back, and what is read is spelled so, of a state that fits; where nothing is read no state
/// has these bytes; no spelling is the front of another one.
pub fn differences_are_exact()
    ensures { DifferencesAreExact }
{}

/// Both forms of states are exact: what is written is read back, and what is read is spelled so.
pub fn forms_are_exact()
    ensures { FormsAreExact }
{}

/// What differs between a state that has a spelling and its parent's has one too.
pub fn each_delta_has_bytes()
    ensures { EachDeltaHasBytes }
{}

/// What is written of a state that fits the script, or of the difference of one, says each front of it.
pub fn fronts_are_read()
    ensures { AreFrontsRead }
{}

/// The front of a state is that of its parent's, as far as it is shared, with what the difference has of it.
pub fn fronts_join()
    ensures { FrontsJoin }
{}
