ghost use Rattle.std.specs.Prelude.{◌≡◌, IfOk, take, drop};
ghost use Rattle.frame_codec.specs.Parted.{whole_of};
ghost use Rattle.frame_codec.specs.PartedViews.{parted_of, cut, IsMadeOf};

use crate::shared::{behind, front};
use script_value::Bytes;
use std::alloc::{AllocError, Global};

/// The byte before a state that is written by itself.
pub const ALONE: u8 = 0;

/// The byte before what differs from the state that a state is written after.
pub const BEHIND: u8 = 1;

/// A state or a difference as a record has it: the byte of its form, and its spelling, each part of which can be read without the
/// others: the variables, the frames and the bindings of web cells.
#[derive(Drop)]
pub struct Parted {
    bytes: Bytes,
    // Where the frames begin, and where the bindings do.
    frames_at: usize,
    shadows_at: usize,
}

impl Parted {
    /// These parts, the first with the byte of the form, in no more memory than they take.
    pub fn of(env: Bytes, frames: &Bytes, shadows: &Bytes) -> Result<Parted, AllocError>
        ensures { IfOk result (IsMadeOf env frames.now shadows.now) }
    {
        let mut bytes = env.into_vec();
        let frames_at = bytes.len();
        bytes.extend_from_slice(frames.as_slice())?;
        let shadows_at = bytes.len();
        bytes.extend_from_slice(shadows.as_slice())?;
        bytes.shrink_to_fit();
        Ok(Parted {
            bytes: Bytes::new(bytes),
            frames_at,
            shadows_at,
        })
    }

    /// Bytes that were read, whose frames begin at the first of these places, and whose bindings do at the second.
    pub fn cut(bytes: Bytes, frames_at: usize, shadows_at: usize) -> Parted
        ensures { parted_of result ≡ cut bytes frames_at shadows_at }
    {
        Parted {
            bytes,
            frames_at,
            shadows_at,
        }
    }

    /// The byte of the form, and all of the spelling.
    pub fn as_slice(&self) -> &[u8]
        ensures { result.now ≡ whole_of (parted_of self.now) }
    {
        self.bytes.as_slice()
    }

    /// The byte of the form, and all of the spelling, which it keeps.
    pub fn into_bytes(self) -> Bytes
        ensures { result ≡ whole_of (parted_of self) }
    {
        self.bytes
    }

    /// A copy of the spelling, without the byte of the form.
    pub fn spelling(&self, alloc: Global) -> Result<Bytes, AllocError>
        ensures { IfOk result (λ bytes. bytes ≡ drop 1 (whole_of (parted_of self.now))) }
    {
        let mut bytes = Vec::new(alloc);
        bytes.extend_from_slice(behind(self.as_slice(), 1))?;
        Ok(Bytes::new(bytes))
    }

    // What stands before the bindings.
    fn head(&self) -> &[u8]
        ensures { result.now ≡ take self.now.shadows_at self.now.bytes }
    {
        front(self.bytes.as_slice(), self.shadows_at)
    }

    /// The bytes of the variables.
    pub fn env(&self) -> &[u8]
        ensures { result.now ≡ drop 1 (parted_of self.now).env }
    {
        behind(front(self.head(), self.frames_at), 1)
    }

    /// The bytes of the frames.
    pub fn frames(&self) -> &[u8]
        ensures { result.now ≡ (parted_of self.now).frames }
    {
        behind(self.head(), self.frames_at)
    }

    /// The bytes of the bindings.
    pub fn shadows(&self) -> &[u8]
        ensures { result.now ≡ (parted_of self.now).shadows }
    {
        behind(self.bytes.as_slice(), self.shadows_at)
    }

    /// A copy, equal to its source.
    pub fn try_clone(&self, alloc: Global) -> Result<Parted, AllocError>
        ensures { IfOk result (λ copy. parted_of copy ≡ parted_of self.now) }
    {
        Ok(Parted {
            bytes: self.bytes.try_clone(alloc)?,
            frames_at: self.frames_at,
            shadows_at: self.shadows_at,
        })
    }
}
