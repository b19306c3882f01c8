ghost use Rattle.std.specs.Prelude.{◌≡◌, ◌∷◌, None};
ghost use Rattle.machine_states.specs.Views.{suspended_of};
ghost use Rattle.frame_codec.specs.Deltas.{delta_bytes};
ghost use Rattle.frame_codec.specs.DeltaViews.{delta_of};
ghost use Rattle.frame_codec.specs.Forms.{form_bytes};
ghost use Rattle.frame_codec.specs.Parted.{state_parts, delta_parts};
ghost use Rattle.frame_codec.specs.PartedViews.{parted_of};

use crate::difference::Delta;
use crate::parted::Parted;
use crate::size::frames_length;
use machine_states::Suspended;
use script_value::Bytes;
use value_bytes::values_length;

// Bytes that were read, as they are.
impl Parted {
    /// The bytes of a state that is written by itself, in their parts. It takes no memory.
    pub fn of_state(bytes: Bytes, state: &Suspended) -> Parted
        requires { bytes ≡ form_bytes None (suspended_of state.now) }
        ensures { parted_of result ≡ state_parts (suspended_of state.now) }
    {
        let env = values_length(state.env.as_slice());
        let frames = frames_length(state.frames.as_slice());
        let frames_at = env.saturating_add(1);
        let shadows_at = frames_at.saturating_add(frames).saturating_add(4);
        let length = bytes.as_slice().len();
        prove!(length < 1 << 63);
        Parted::cut(bytes, frames_at as usize, shadows_at as usize)
    }

    /// The bytes of a difference, in their parts. It takes no memory.
    pub fn of_delta(bytes: Bytes, delta: &Delta) -> Parted
        requires { bytes ≡ 1 ∷ delta_bytes (delta_of delta.now) }
        ensures { parted_of result ≡ delta_parts (delta_of delta.now) }
    {
        let env = values_length(delta.env.as_slice());
        let frames = frames_length(delta.frames.as_slice());
        let frames_at = env.saturating_add(5);
        let shadows_at = frames_at.saturating_add(frames).saturating_add(8);
        let length = bytes.as_slice().len();
        prove!(length < 1 << 63);
        Parted::cut(bytes, frames_at as usize, shadows_at as usize)
    }
}
