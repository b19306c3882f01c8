ghost use Rattle.std.specs.Prelude.{◌≡◌, ◌<◌, ◌+◌, ◌^◌, ◌++◌, [], IfOk, OnOk, map, length};
ghost use Rattle.script_value.specs.Val.{list, no_vals};
ghost use Rattle.instance_cells.specs.Cells.{AreOn};
ghost use Rattle.instance_cells.specs.Views.{effect_of};
ghost use Rattle.instance_book.specs.Lists.{HasRoom};
ghost use Rattle.instance_book.specs.Views.{pages_of, HasRoomAt, effects_in};
ghost use Rattle.instance_book.specs.Places.{shown_in};
ghost use Rattle.instance_book.specs.Makes.{StaysSame, KeepsPlaces, KeepsStates};
ghost use Rattle.instance_book.specs.Changes.{renewed, HasRoomToOpen};
ghost use Rattle.instance_book.specs.Segments.{Revokes, BeginsBy, IsLeftBy, IsOpenedBy, IsExtendedBy};

use crate::after::{After, Show};
use crate::book::Book;
use crate::change::{Extension, Opening};
use crate::in_order::InOrder;
use crate::instance::KeptInstance;
use crate::numbered::Numbered;
use crate::page::{KeptPage, new_page};
use crate::shown::ShownState;
use instance_cells::{Cells, Effect};
use journal_records::PageRecord;
use kept_states::StoredValue;
use script_nodes::SendKind;
use script_value::{Items, TxName, Value};
use std::alloc::{AllocError, Global};
use transactions::Closed;

// These transactions are closed too.
fn close(closed: &mut Closed, left: &[TxName]) -> Result<(), AllocError>
    ensures { OnOk result (closed.new ≡ closed.old ++ left.now) }
{
    for name in left {
        closed.add(*name)?;
    }
    Ok(())
}

// The closed transactions with these more.
fn closed_with(closed: Closed, left: &[TxName]) -> Result<Closed, AllocError>
    ensures { IfOk result (λ more. more ≡ closed ++ left.now) }
{
    let mut more = closed;
    close(&mut more, left)?;
    Ok(more)
}

// The closed transactions where a segment left some, or none where it left none.
fn closed_after(
    alloc: Global,
    closed: &Closed,
    left: &[TxName],
) -> Result<Option<Closed>, AllocError>
    ensures { IfOk result (λ after. renewed closed.now after ≡ closed.now ++ left.now) }
{
    if left.is_empty() {
        return Ok(None);
    }
    let copy = closed.try_clone(alloc)?;
    Ok(Some(closed_with(copy, left)?))
}

// The pages that are revoked, where the page forwards.
fn revoked_after(
    alloc: Global,
    kind: SendKind,
    pages: &InOrder<KeptPage>,
) -> Result<Option<InOrder<()>>, AllocError>
    ensures { IfOk result (Revokes kind pages.now) }
{
    match kind {
        SendKind::Suspend => Ok(None),
        SendKind::Forward => Ok(Some(pages.numbers(alloc)?)),
    }
}

// What a page has that answers none: the empty list.
fn no_answer(alloc: Global) -> Result<StoredValue, AllocError>
    ensures { IfOk result (λ answer. answer ≡ list no_vals) }
{
    StoredValue::of(alloc, &Value::List(Items::new(alloc)))
}

// The instance of a start of the script of this place over these cells, which has room for its page.
fn begun(
    alloc: Global,
    place: usize,
    cells: &Cells,
    effects: &[Effect],
    left: &[TxName],
) -> Result<KeptInstance, AllocError>
    requires { AreOn (length cells.now) (map effect_of effects.now) }
    ensures instance { IfOk result (BeginsBy place cells.now effects.now left.now) }
    ensures room { IfOk result (λ instance. HasRoom instance.pages) }
    ensures script { IfOk result (λ instance. instance.script ≡ place) }
    ensures pages { IfOk result (λ instance. pages_of instance.pages ≡ []) }
    ensures shown { IfOk result (λ instance. shown_in instance.pages ≡ []) }
{
    Ok(KeptInstance {
        script: place,
        cells: cells.committed(alloc, effects)?,
        closed: closed_with(Closed::new(alloc), left)?,
        revoked: InOrder::new(alloc),
        pages: InOrder::with_room(alloc)?,
    })
}

impl KeptInstance {
    /// What a segment leaves of the instance.
    pub fn after(
        &self,
        alloc: Global,
        effects: &[Effect],
        left: &[TxName],
    ) -> Result<After, AllocError>
        requires { AreOn (length self.now.cells) (map effect_of effects.now) }
        ensures { IfOk result (IsLeftBy effects.now left.now self.now) }
    {
        Ok(After {
            cells: self.cells.committed(alloc, effects)?,
            closed: closed_after(alloc, &self.closed, left)?,
        })
    }
}

impl Numbered<KeptInstance> {
    /// The extension that a record tells of: an answer to this page of the instance, with this.
    pub fn extended(
        &self,
        alloc: Global,
        told: PageRecord,
        answered: u64,
        answer: StoredValue,
        page: ShownState,
    ) -> Result<Extension, AllocError>
        requires { AreOn (length self.now.item.cells) (effects_in told) }
        ensures { IfOk result (IsExtendedBy told answered answer page self.now) }
    {
        let ShownState {
            inside,
            state,
            kept,
        } = page;
        let after = self.item.after(alloc, &told.effects, &told.left)?;
        let revoked = revoked_after(alloc, told.kind, &self.item.pages)?;
        let page = new_page(alloc, &told, Some(answered), answer, inside, kept)?;
        Ok(Extension {
            instance: self.number,
            record: told,
            state,
            show: Show {
                page,
                revoked,
                after,
            },
        })
    }
}

impl Book {
    /// The opening that a record tells of: a start of the script of this place over these cells; and the room that it takes.
    pub fn opened(
        &mut self,
        alloc: Global,
        place: usize,
        cells: &Cells,
        told: PageRecord,
        page: ShownState,
    ) -> Result<Opening, AllocError>
        requires on { AreOn (length cells.now) (effects_in told) }
        requires few { length self.old.instances.things.items + 1 < 2 ^ 32 }
        ensures book { StaysSame self.old self.new }
        ensures placed { KeepsPlaces self.old self.new }
        ensures states { KeepsStates self.old self.new }
        ensures room { IfOk result (λ o. HasRoomToOpen o self.new) }
        ensures opens { IfOk result (IsOpenedBy place cells.now told page) }
    {
        let ShownState {
            inside,
            state,
            kept,
        } = page;
        let answer = no_answer(alloc)?;
        let page = new_page(alloc, &told, None, answer, inside, kept)?;
        let instance = begun(alloc, place, cells, &told.effects, &told.left)?;
        self.instances.make_room()?;
        Ok(Opening {
            record: told,
            page,
            state,
            instance,
        })
    }

    /// Room for one page more in an instance.
    pub fn room_in(&mut self, instance: u64) -> Result<(), AllocError>
        ensures book { StaysSame self.old self.new }
        ensures placed { KeepsPlaces self.old self.new }
        ensures states { KeepsStates self.old self.new }
        ensures room { OnOk result (HasRoomAt instance self.new.instances) }
    {
        self.instances.make_room_in(instance)
    }
}
