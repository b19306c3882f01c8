ghost use Rattle.std.specs.Prelude.{◌≡◌, IfOk, option_map};
ghost use Rattle.frame_codec.specs.MachineStates.Views.{suspended_of};
ghost use Rattle.kept_states.specs.Kept.{bytes_of, IsKeptAfter, kept_of};
ghost use Rattle.frame_codec.specs.Forms.{IsStoredBefore};
ghost use Rattle.frame_codec.specs.FormViews.{before_of};
ghost use Rattle.kept_states.specs.Given.{GivesAlone, GivesBehind};
ghost use Rattle.kept_states.specs.Told.{TellsState, KeepsTold};

use crate::form::{Form, Found, ToldForm};
use frame_codec::{Need, Origin, Script, Suspended};
use script_value::Bytes;
use std::alloc::{AllocError, Global};

/// What is kept of the state of a page: the bytes that its record has, of the state by itself or of what differs from the state of
/// the page before.
///
/// A state that has no spelling is kept as it is.
#[derive(Drop)]
pub struct KeptState {
    /// How many links it is from a page whose state is kept by itself.
    pub links: u8,
    form: Form,
}

/// A state that bytes tell, and what is kept of it.
#[derive(Drop)]
pub struct ToldState {
    pub state: Suspended,
    pub kept: KeptState,
}

impl KeptState {
    /// What is kept of a state so many links from one that is kept by itself, where the page before it has the state of the
    /// origin.
    pub fn of(
        alloc: Global,
        before: &Origin,
        links: u8,
        state: &Suspended,
    ) -> Result<KeptState, AllocError>
        ensures { IfOk result (IsKeptAfter before.now links (suspended_of state.now)) }
    {
        let Origin::Page(parent) = before else {
            let form = Form::alone(alloc, state)?;
            return Ok(KeptState { links, form });
        };
        if links == 0 {
            let form = Form::alone(alloc, state)?;
            return Ok(KeptState { links, form });
        }
        let form = Form::behind(alloc, parent, state)?;
        Ok(KeptState { links, form })
    }

    /// The state that the bytes of a record tell, after that of the page before where it is given, and what is kept of it, so many
    /// links from one that is kept by itself: the bytes as they are. None where no state of the script has them.
    pub fn told(
        alloc: Global,
        script: &Script,
        before: Option<&Suspended>,
        links: u8,
        bytes: Bytes,
    ) -> Result<Option<ToldState>, AllocError>
        requires { IsStoredBefore script.now (before_of before) }
        ensures told { IfOk result (TellsState script.now before.entry bytes) }
        ensures kept { IfOk result (KeepsTold script.now before.entry links bytes) }
    {
        let told = match before {
            None => Form::told_alone(alloc, script, bytes)?,
            Some(parent) => Form::told_behind(alloc, script, parent, bytes)?,
        };
        let Some(ToldForm { state, form }) = told else {
            return Ok(None);
        };
        Ok(Some(ToldState {
            state,
            kept: KeptState { links, form },
        }))
    }

    /// The bytes that its record has; none where the state is kept as it is.
    pub fn bytes(&self) -> Option<&[u8]>
        ensures { option_map (λ bytes. bytes.now) result ≡ bytes_of (kept_of self.now).form }
    {
        self.form.bytes()
    }

    /// A front of the state, where it is kept by itself.
    pub fn read_alone(
        &self,
        alloc: Global,
        script: &Script,
        need: Need,
    ) -> Result<Option<Suspended>, AllocError>
        ensures { IfOk result (GivesAlone script.now need (kept_of self.now).form) }
    {
        self.form.read_alone(alloc, script, need)
    }

    /// What is found of a front of the state, where it is kept as what differs from that of the page before.
    pub fn read_behind(
        &self,
        alloc: Global,
        script: &Script,
        need: Need,
    ) -> Result<Option<Found>, AllocError>
        ensures { IfOk result (GivesBehind script.now need (kept_of self.now).form) }
    {
        self.form.read_behind(alloc, script, need)
    }

    /// A copy, equal to its source.
    pub fn try_clone(&self, alloc: Global) -> Result<KeptState, AllocError>
        ensures { IfOk result (λ copy. kept_of copy ≡ kept_of self.now) }
    {
        Ok(KeptState {
            links: self.links,
            form: self.form.try_clone(alloc)?,
        })
    }
}
