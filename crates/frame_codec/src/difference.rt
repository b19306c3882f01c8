ghost use Rattle.std.specs.Prelude.{◌≡◌};
ghost use Rattle.frame_codec.specs.DeltaViews.{delta_of};
ghost use Rattle.frame_codec.specs.Fronts.{shared_need};

use crate::need::Need;
use machine_states::Frame;
use script_value::Items;
use web_cells::Own;

/// What differs between a page's state and that of its parent.
#[derive(Drop)]
pub struct Delta {
    /// How many variables, from the outermost on, are the parent's.
    pub env_shared: usize,
    /// The other variables.
    pub env: Items,
    /// How many frames, from the outermost on, are the parent's.
    pub frames_shared: usize,
    /// The other frames.
    pub frames: Vec<Frame>,
    /// The bindings of web cells that the parent has not, or has with another value.
    pub shadows: Own,
}

impl Delta {
    /// How much of the parent's state is shared.
    pub fn shared(&self) -> Need
        ensures { result ≡ shared_need (delta_of self.now) }
    {
        Need {
            variables: self.env_shared,
            frames: self.frames_shared,
        }
    }
}
