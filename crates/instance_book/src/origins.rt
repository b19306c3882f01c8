ghost use Rattle.std.specs.Prelude.{◌≡◌, IfOk};
ghost use Rattle.script_nodes.specs.Views.{named_of};
ghost use Rattle.kept_states.specs.MachineStates.Views.{suspended_of};
ghost use Rattle.kept_states.specs.FrameCodec.Stored.{IsStored};
ghost use Rattle.instance_book.specs.Places.{AreStatesOf, IsStateIn, IsOriginIn};
ghost use Rattle.instance_book.specs.Fits.{IsOriginOf, IsStoredOrigin};
ghost use Rattle.instance_book.specs.Fronts.{IsFrontIn};

use crate::in_order::InOrder;
use crate::numbered::Numbered;
use crate::page::KeptPage;
use kept_states::{Found, Need, Origin, Suspended, each_page_has_one_state, join};
use script_nodes::NamedScript;
use std::alloc::{AllocError, Global};

// A front of the state of a page that is so many links from one whose state is kept by itself. Of the page before it reads what
// this front shares, and no more. It recurses as deep, at most 32.
fn front_of(
    alloc: Global,
    script: &NamedScript,
    pages: &InOrder<KeptPage>,
    page: &Numbered<KeptPage>,
    need: Need,
    links: u8,
) -> Result<Suspended, AllocError>
    requires states { AreStatesOf (named_of script.now) pages.now page.now }
    requires links { page.now.item.state.links ≡ links }
    ensures { IfOk result (IsFrontIn (named_of script.now) pages.now page.now need) }
{
    // A script's root tells that its nodes are its tree's.
    let _root = script.script.root();
    each_page_has_one_state();
    if links == 0 {
        let Some(front) = page.item.state.read_alone(alloc, &script.script, need)? else {
            unreachable!()
        };
        return Ok(front);
    }
    let Some(parent) = page.item.parent else {
        unreachable!()
    };
    let Some(before) = pages.page(parent) else {
        unreachable!()
    };
    match page.item.state.read_behind(alloc, &script.script, need)? {
        Some(Found::Front(front)) => Ok(front),
        Some(Found::Difference(own)) => {
            let shared = front_of(alloc, script, pages, before, own.shared(), links - 1)?;
            Ok(join(alloc, shared, own)?)
        }
        None => unreachable!(),
    }
}

/// The state of a page.
pub fn state_of(
    alloc: Global,
    script: &NamedScript,
    pages: &InOrder<KeptPage>,
    page: &Numbered<KeptPage>,
) -> Result<Suspended, AllocError>
    requires { AreStatesOf (named_of script.now) pages.now page.now }
    ensures stored { IfOk result (λ d. IsStored script.now.script (suspended_of d)) }
    ensures state { IfOk result (IsStateIn (named_of script.now) pages.now page.now) }
{
    // A script's root tells that its nodes are its tree's.
    let _root = script.script.root();
    each_page_has_one_state();
    let links = page.item.state.links;
    let state = front_of(alloc, script, pages, page, Need::ALL, links)?;
    // No list is as long as what is needed, so none of it is left out.
    let variables = state.env.as_slice().len();
    let frames = state.frames.as_slice().len();
    prove!(variables < usize::MAX);
    prove!(frames < usize::MAX);
    Ok(state)
}

/// What an answer to a page goes on from.
pub fn origin_at(
    alloc: Global,
    script: &NamedScript,
    pages: &InOrder<KeptPage>,
    page: &Numbered<KeptPage>,
) -> Result<Origin, AllocError>
    requires { AreStatesOf (named_of script.now) pages.now page.now }
    ensures fits { IfOk result (IsOriginOf (named_of script.now)) }
    ensures stored { IfOk result (IsStoredOrigin (named_of script.now)) }
    ensures origin { IfOk result (IsOriginIn (named_of script.now) pages.now page.now) }
{
    // A script's root tells that its nodes are its tree's.
    let _root = script.script.root();
    Ok(Origin::Page(state_of(alloc, script, pages, page)?))
}
