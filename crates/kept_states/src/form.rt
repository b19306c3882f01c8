ghost use Rattle.std.specs.Prelude.{◌≡◌, ◌↔◌, IsTrue, IfOk, Some, None, IfSome, option_map};
ghost use Rattle.frame_codec.specs.MachineStates.Views.{suspended_of};
ghost use Rattle.frame_codec.specs.Stored.{IsStored};
ghost use Rattle.frame_codec.specs.Forms.{SpellsForm};
ghost use Rattle.frame_codec.specs.FormViews.{ReadsForm};
ghost use Rattle.kept_states.specs.Kept.{bytes_of, CanDiffer, IsFormAlone, IsFormBehind, form_of};
ghost use Rattle.kept_states.specs.Told.{TellsForm, KeepsForm, TellsDelta, IsDeltaTold};
ghost use Rattle.kept_states.specs.Given.{GivesAlone, GivesBehind};

use crate::shades::binds_all_of;
use frame_codec::{
    BEHIND, Delta, Need, Parted, Script, Suspended, copied_front, decode_delta, decode_form, delta,
    each_delta_has_bytes, forms_are_exact, is_spelled, join, read_delta_front, read_front,
    spell_delta, spell_state,
};
use script_value::Bytes;
use std::alloc::{AllocError, Global};

/// A state, or what differs from another one.
#[derive(Drop)]
pub enum Form {
    Spelled(Parted),
    Whole(Suspended),
}

/// A state that bytes tell, and what is kept of it.
#[derive(Drop)]
pub struct ToldForm {
    pub state: Suspended,
    pub form: Form,
}

/// What is found of a front of a state that is kept after its parent's.
#[derive(Drop)]
pub enum Found {
    /// The front.
    Front(Suspended),
    /// What the front has after that front of the parent's state that it shares.
    Difference(Delta),
}

// Whether a state can be kept as what differs from its parent's.
fn can_differ(parent: &Suspended, state: &Suspended) -> bool
    ensures { IsTrue result ↔ CanDiffer (suspended_of parent.now) (suspended_of state.now) }
{
    is_spelled(state) && binds_all_of(&parent.shades, &state.shades)
}

// The state of the script that these bytes tell by itself.
fn told_whole(alloc: Global, script: &Script, bytes: &[u8]) -> Result<Option<Suspended>, AllocError>
    ensures told { IfOk result (ReadsForm script.now None bytes.now) }
    ensures spelled { IfOk result (λ found.
        IfSome found (λ d. SpellsForm script.now None bytes.now (suspended_of d))) }
{
    forms_are_exact();
    decode_form(alloc, script, None, bytes)
}

// The difference that these bytes tell of a state of the script from its parent's.
fn told_delta(
    alloc: Global,
    script: &Script,
    parent: &Suspended,
    bytes: &[u8],
) -> Result<Option<Delta>, AllocError>
    requires { IsStored script.now (suspended_of parent.now) }
    ensures told { IfOk result (TellsDelta script.now parent.now bytes.now) }
    ensures spelled { IfOk result
        (λ found. IfSome found (IsDeltaTold script.now parent.now bytes.now)) }
{
    forms_are_exact();
    let [form, spelling @ ..] = bytes else {
        return Ok(None);
    };
    if *form != BEHIND {
        return Ok(None);
    }
    decode_delta(alloc, script, parent, spelling)
}

impl Form {
    /// What is kept of a state by itself.
    pub fn alone(alloc: Global, state: &Suspended) -> Result<Form, AllocError>
        ensures { IfOk result (IsFormAlone state.now) }
    {
        if is_spelled(state) {
            Ok(Form::Spelled(spell_state(alloc, state)?))
        } else {
            Ok(Form::Whole(state.try_clone(alloc)?))
        }
    }

    /// What is kept of a state after its parent's.
    pub fn behind(alloc: Global, parent: &Suspended, state: &Suspended) -> Result<Form, AllocError>
        ensures { IfOk result (IsFormBehind parent.now state.now) }
    {
        each_delta_has_bytes();
        if can_differ(parent, state) {
            let delta = delta(alloc, parent, state)?;
            Ok(Form::Spelled(spell_delta(alloc, &delta)?))
        } else {
            Ok(Form::Whole(state.try_clone(alloc)?))
        }
    }

    /// The state that these bytes tell by itself, and what is kept of it: the bytes as they are. None where no state of the script
    /// has them.
    pub fn told_alone(
        alloc: Global,
        script: &Script,
        bytes: Bytes,
    ) -> Result<Option<ToldForm>, AllocError>
        ensures told { IfOk result (TellsForm script.now None bytes) }
        ensures kept { IfOk result (KeepsForm script.now None bytes) }
    {
        let Some(state) = told_whole(alloc, script, bytes.as_slice())? else {
            return Ok(None);
        };
        let form = Form::Spelled(Parted::of_state(bytes, &state));
        Ok(Some(ToldForm { state, form }))
    }

    /// The state that these bytes tell after its parent's, and what is kept of it: the bytes as they are. None where no state of
    /// the script has them.
    pub fn told_behind(
        alloc: Global,
        script: &Script,
        parent: &Suspended,
        bytes: Bytes,
    ) -> Result<Option<ToldForm>, AllocError>
        requires { IsStored script.now (suspended_of parent.now) }
        ensures told { IfOk result (TellsForm script.now (Some (suspended_of parent.now)) bytes) }
        ensures kept { IfOk result (KeepsForm script.now (Some (suspended_of parent.now)) bytes) }
    {
        let Some(delta) = told_delta(alloc, script, parent, bytes.as_slice())? else {
            return Ok(None);
        };
        let form = Form::Spelled(Parted::of_delta(bytes, &delta));
        let state = join(alloc, parent.try_clone(alloc)?, delta)?;
        Ok(Some(ToldForm { state, form }))
    }

    /// The bytes that a record has; none of a state as it is.
    pub fn bytes(&self) -> Option<&[u8]>
        ensures { option_map (λ bytes. bytes.now) result ≡ bytes_of (form_of self.now) }
    {
        match self {
            Form::Spelled(parts) => Some(parts.as_slice()),
            Form::Whole(_) => None,
        }
    }

    /// A front of the state that is kept by itself.
    pub fn read_alone(
        &self,
        alloc: Global,
        script: &Script,
        need: Need,
    ) -> Result<Option<Suspended>, AllocError>
        ensures { IfOk result (GivesAlone script.now need (form_of self.now)) }
    {
        match self {
            Form::Spelled(parts) => Ok(read_front(alloc, script, parts, need)?),
            Form::Whole(state) => Ok(Some(copied_front(alloc, state, need)?)),
        }
    }

    /// What is found of a front of the state that is kept after its parent's.
    pub fn read_behind(
        &self,
        alloc: Global,
        script: &Script,
        need: Need,
    ) -> Result<Option<Found>, AllocError>
        ensures { IfOk result (GivesBehind script.now need (form_of self.now)) }
    {
        match self {
            Form::Spelled(parts) => match read_delta_front(alloc, script, parts, need)? {
                Some(delta) => Ok(Some(Found::Difference(delta))),
                None => Ok(None),
            },
            Form::Whole(state) => Ok(Some(Found::Front(copied_front(alloc, state, need)?))),
        }
    }

    /// A copy, equal to its source.
    pub fn try_clone(&self, alloc: Global) -> Result<Form, AllocError>
        ensures { IfOk result (λ copy. form_of copy ≡ form_of self.now) }
    {
        match self {
            Form::Spelled(parts) => Ok(Form::Spelled(parts.try_clone(alloc)?)),
            Form::Whole(state) => Ok(Form::Whole(state.try_clone(alloc)?)),
        }
    }
}
