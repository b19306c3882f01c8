ghost use Rattle.std.specs.Prelude.{None, IfOk};
ghost use Rattle.script_nodes.specs.Arena.{script_of};
ghost use Rattle.script_nodes.specs.Views.{named_of};
ghost use Rattle.frame_codec.specs.Forms.{IsStoredBefore};
ghost use Rattle.frame_codec.specs.FormViews.{before_of};
ghost use Rattle.instance_book.specs.Places.{arena_of, AreStatesOf};
ghost use Rattle.book_redo.specs.Landing.{IsBeforeAt, IsStoredAt, LacksAnswerAt, LacksState, TellsAnswerAt, TellsState};

use instance_book::{KeptState, Place, ShownState, ToldState, next_links, state_of};
use machine_states::Suspended;
use script_nodes::Script;
use script_value::Bytes;
use std::alloc::{AllocError, Global};

/// What a page has that its record does not tell, where these bytes are a state of the script after that one.
pub fn state_told(
    alloc: Global,
    script: &Script,
    before: Option<&Suspended>,
    links: u8,
    bytes: Bytes,
) -> Result<Option<ShownState>, AllocError>
    requires { IsStoredBefore (arena_of (script_of script.now)) (before_of before) }
    ensures some { TellsState (arena_of (script_of script.now)) (before_of before.entry)
        links bytes result }
    ensures none { LacksState (arena_of (script_of script.now)) (before_of before.entry)
        bytes result }
{
    // A script's root tells that its nodes are its tree's.
    let _root = script.root();
    let Some(ToldState { state, kept }) = KeptState::told(alloc, script, before, links, bytes)?
    else {
        return Ok(None);
    };
    let inside = state.inside(alloc)?;
    Ok(Some(ShownState {
        inside,
        state,
        kept,
    }))
}

// The state that a page is written after which answers this one: this page's, where the links ask for it.
fn before(alloc: Global, place: &Place<'_>) -> Result<Option<Suspended>, AllocError>
    requires { AreStatesOf
        (named_of place.now.script.now) place.now.instance.now.item.pages place.now.page.now }
    ensures before { IfOk result (IsBeforeAt place.now) }
    ensures stored { IfOk result (IsStoredAt place.now) }
{
    // A script's root tells that its nodes are its tree's.
    let _root = place.script.script.root();
    if next_links(place.page.item.state.links) == 0 {
        return Ok(None);
    }
    let state = state_of(alloc, place.script, &place.instance.item.pages, place.page)?;
    Ok(Some(state))
}

/// What a page has that answers this one, where these bytes are a state of the script.
pub fn told_there(
    alloc: Global,
    place: &Place<'_>,
    bytes: Bytes,
) -> Result<Option<ShownState>, AllocError>
    requires { AreStatesOf
        (named_of place.now.script.now) place.now.instance.now.item.pages place.now.page.now }
    ensures some { IfOk result (TellsAnswerAt place.now bytes) }
    ensures none { IfOk result (LacksAnswerAt place.now bytes) }
{
    let links = next_links(place.page.item.state.links);
    let parent = before(alloc, place)?;
    state_told(alloc, &place.script.script, parent.as_ref(), links, bytes)
}
