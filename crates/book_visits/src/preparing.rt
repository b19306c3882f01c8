ghost use Rattle.std.specs.Prelude.{◌≡◌, ◌<◌, ◌≤◌, ◌+◌, ◌^◌, None, Ok, IfOk, IfErr, OnOk, map, length, Contains};
ghost use Rattle.instance_cells.specs.Cells.{AreOn};
ghost use Rattle.instance_cells.specs.Views.{effect_of};
ghost use Rattle.machine_states.specs.Views.{segment_of};
ghost use Rattle.replay_spec.specs.Book.{page_at};
ghost use Rattle.instance_book.specs.Views.{pages_of, HasRoomAt};
ghost use Rattle.book_visits.specs.Views.{reply_of};
ghost use Rattle.instance_book.specs.Makes.{StaysSame, KeepsPlaces, KeepsStates};
ghost use Rattle.book_visits.specs.Changes.{HasDeadlineBy};
ghost use Rattle.instance_book.specs.Changes.{HasRoomFor};
ghost use Rattle.book_visits.specs.Prepares.{IsOfRun, WantsRoom, StartsOn, AnswersBy, IsOnCells, AreOnCells, IsNewIn, IsNew, IsPreparedBy, StartKeepsState, KeepsAnswerState, KeepsItsState, IsOfStart, IsOfAnswer, IsOfItsSegment};
ghost use Rattle.book_visits.specs.Segments.{Shows, CanBeShown, EndsOn, FinishesOn, OpensOn, KeepsFirstState, KeepsNextState};

use crate::goes::goes_for;
use crate::prepared::Prepared;
use crate::shown::ShownPage;
use crate::ticket::Ticket;
use expiry::{LONGEST_LIFE, deadline};
use instance_book::{
    Book, Change, Ending, Finish, KeptInstance, KeptState, Numbered, ShownState, StoredValue,
};
use instance_cells::Effect;
use journal_records::{EndedRecord, FinishRecord, PageRecord};
use machine_states::{Origin, Outcome, Segment};
use page_names::{PageName, Target};
use script_value::{Bytes, Refusal, Reply, TxName};
use std::alloc::{AllocError, Global};

// What a segment did that showed no page: its effects, the transactions inside which it stopped, and those that it left.
#[derive(Drop)]
struct Done {
    effects: Vec<Effect>,
    inside: Vec<TxName>,
    left: Vec<TxName>,
}

// The reply with a page under the ticket's URL.
fn shown(alloc: Global, page: Bytes, ticket: &Ticket) -> Result<Reply, AllocError>
    ensures { IfOk result (λ reply. reply ≡ Reply.Page page ticket.now.url) }
{
    let url = Bytes::new(ticket.url.as_str().as_bytes().to_vec(alloc)?);
    Ok(Reply::Page { bytes: page, url })
}

// A visit that is answered so and changes nothing.
fn unchanged(reply: Reply) -> Prepared
    ensures reply { result.reply ≡ reply }
    ensures logged { result.logged ≡ 0 }
    ensures change { result.change ≡ None }
{
    Prepared {
        reply,
        logged: 0,
        change: None,
    }
}

// An answer to a page of the instance showed a page, for which others go, where so many may be left.
fn extension(
    alloc: Global,
    instance: &Numbered<KeptInstance>,
    ticket: &Ticket,
    answered: u64,
    bytes: Bytes,
    page: ShownPage,
    limit: u32,
) -> Result<Prepared, AllocError>
    requires on { AreOn (length instance.now.item.cells) (map effect_of page.effects.items) }
    requires number { ticket.now.number < 2 ^ 63 }
    requires unused { page_at ticket.now.number (pages_of instance.now.item.pages) ≡ None }
    ensures state { IfOk result (KeepsNextState ticket.now instance.now.number answered page) }
    ensures shows { IfOk result (Shows ticket.now answered bytes page limit instance.now) }
    ensures shown { IfOk result (CanBeShown instance.now) }
{
    let reply = shown(alloc, bytes, ticket)?;
    let evicted = goes_for(alloc, &instance.item.pages, answered, ticket.number, limit)?;
    let answer = StoredValue::of(alloc, &ticket.answer)?;
    let kept = KeptState::of(alloc, &ticket.from, ticket.links, &page.state)?;
    let record = PageRecord {
        ticket: ticket.number,
        nonce: ticket.nonce,
        origin: journal_records::Origin::Answer {
            instance: instance.number,
            page: answered,
            answer: ticket.answer.try_clone(alloc)?,
        },
        effects: page.effects,
        left: page.left,
        kind: page.kind,
        deadline: page.deadline,
        evicted,
    };
    let state = ShownState {
        inside: page.inside,
        state: page.state,
        kept,
    };
    let extension = instance.extended(alloc, record, answered, answer, state)?;
    Ok(Prepared {
        reply,
        logged: ticket.number + 1,
        change: Some(Change::Extends(extension)),
    })
}

// An answer to a page of the instance ended with a last page.
fn ending(
    alloc: Global,
    instance: &Numbered<KeptInstance>,
    ticket: &Ticket,
    answered: u64,
    page: Bytes,
    done: Done,
) -> Result<Prepared, AllocError>
    requires on { AreOn (length instance.now.item.cells) (map effect_of done.effects.items) }
    requires number { ticket.now.number < 2 ^ 63 }
    ensures { IfOk result (EndsOn ticket.now answered page done instance.now) }
{
    let after = instance.item.after(alloc, &done.effects, &done.left)?;
    let answer = ticket.answer.try_clone(alloc)?;
    Ok(Prepared {
        reply: Reply::Ended(page),
        logged: ticket.number + 1,
        change: Some(Change::Ends(Ending {
            record: EndedRecord {
                ticket: ticket.number,
                instance: instance.number,
                page: answered,
                answer,
                effects: done.effects,
                left: done.left,
            },
            inside: done.inside,
            after,
        })),
    })
}

// An answer to a page freed its instance.
fn finish(
    alloc: Global,
    ticket: &Ticket,
    instance: u64,
    answered: u64,
    page: Bytes,
    effects: Vec<Effect>,
    inside: Vec<TxName>,
) -> Result<Prepared, AllocError>
    requires { ticket.now.number < 2 ^ 63 }
    ensures { IfOk result
        (FinishesOn ticket.now instance answered page effects.items inside.items) }
{
    Ok(Prepared {
        reply: Reply::Finished(page),
        logged: ticket.number + 1,
        change: Some(Change::Finishes(Finish {
            record: FinishRecord {
                ticket: ticket.number,
                instance,
                page: answered,
                answer: ticket.answer.try_clone(alloc)?,
                effects,
            },
            inside,
        })),
    })
}

// A start showed a page.
fn opening(
    alloc: Global,
    book: &mut Book,
    ticket: &Ticket,
    bytes: Bytes,
    page: ShownPage,
) -> Result<Prepared, AllocError>
    requires on { AreOn (length ticket.now.cells) (map effect_of page.effects.items) }
    requires number { ticket.now.number < 2 ^ 63 }
    requires few { length book.old.instances.things.items + 1 < 2 ^ 32 }
    ensures book { StaysSame book.old book.new }
    ensures placed { KeepsPlaces book.old book.new }
    ensures states { KeepsStates book.old book.new }
    ensures room { IfOk result (λ p. HasRoomFor p.change book.new) }
    ensures state { IfOk result (KeepsFirstState ticket.now page) }
    ensures opens { IfOk result (OpensOn ticket.now bytes page) }
{
    let reply = shown(alloc, bytes, ticket)?;
    let kept = KeptState::of(alloc, &Origin::Start, 0, &page.state)?;
    let record = PageRecord {
        ticket: ticket.number,
        nonce: ticket.nonce,
        origin: journal_records::Origin::Start {
            script: ticket.start,
        },
        effects: page.effects,
        left: page.left,
        kind: page.kind,
        deadline: page.deadline,
        evicted: Vec::new(alloc),
    };
    let state = ShownState {
        inside: page.inside,
        state: page.state,
        kept,
    };
    let opening = book.opened(alloc, ticket.script, &ticket.cells, record, state)?;
    Ok(Prepared {
        reply,
        logged: ticket.number + 1,
        change: Some(Change::Opens(opening)),
    })
}

// What a start comes to.
fn prepare_start(
    alloc: Global,
    book: &mut Book,
    ticket: &Ticket,
    segment: Segment,
    instances: u32,
    life: u64,
) -> Result<Prepared, Reply>
    requires on { AreOn (length ticket.now.cells) (map effect_of segment.effects.items) }
    requires life { life ≤ LONGEST_LIFE }
    requires number { ticket.now.number < 2 ^ 63 }
    ensures book { StaysSame book.old book.new }
    ensures placed { KeepsPlaces book.old book.new }
    ensures states { KeepsStates book.old book.new }
    ensures room { IfOk result (λ p. HasRoomFor p.change book.new) }
    ensures deadline { IfOk result (λ p. HasDeadlineBy p.change) }
    ensures reply { IfOk result (λ p. IsOfRun (reply_of p.reply)) }
    ensures refused { IfErr result (λ r. WantsRoom (reply_of r)) }
    ensures state { IfOk result (λ p. StartKeepsState ticket.now segment p.change) }
    ensures decided { StartsOn book.old ticket.now (segment_of segment) instances life result }
    ensures itself { IsOfStart book.old ticket.now segment result }
{
    let Segment {
        outcome,
        effects,
        entered,
        left,
        cost: _,
    } = segment;
    match outcome {
        Outcome::Shown { page, kind, state } => {
            let count = book.live();
            if count >= instances {
                return Err(Reply::ShelfFull(count as u64));
            }
            let first = ShownPage {
                kind,
                effects,
                inside: entered,
                left,
                deadline: deadline(book.clock(), life),
                state,
            };
            match opening(alloc, book, ticket, page, first) {
                Ok(prepared) => Ok(prepared),
                Err(_) => Err(Reply::Memory),
            }
        }
        Outcome::Finished(page) => Ok(unchanged(Reply::Finished(page))),
        Outcome::Ended(page) => Ok(unchanged(Reply::Ended(page))),
        Outcome::Faulted(fault) => Ok(unchanged(Reply::Fault(fault))),
        Outcome::Fuel(cost) => Ok(unchanged(Reply::Fuel(cost))),
    }
}

// So much, beside what is prepared.
fn with_room(
    book: &mut Book,
    instance: u64,
    made: Result<Prepared, AllocError>,
) -> Result<Prepared, Reply>
    ensures book { StaysSame book.old book.new }
    ensures placed { KeepsPlaces book.old book.new }
    ensures states { KeepsStates book.old book.new }
    ensures made { IfOk result (λ p. made ≡ Ok p) }
    ensures room { OnOk result (HasRoomAt instance book.new.instances) }
    ensures err { IfErr result (λ r. r ≡ Reply.Memory) }
{
    match (made, book.room_in(instance)) {
        (Ok(prepared), Ok(())) => Ok(prepared),
        _ => Err(Reply::Memory),
    }
}

// What an answer to a page comes to.
fn prepare_page(
    alloc: Global,
    book: &mut Book,
    ticket: &Ticket,
    page: &PageName,
    segment: Segment,
    pages: u32,
    life: u64,
) -> Result<Prepared, Reply>
    requires on { IsOnCells book.old page.now.instance (map effect_of segment.effects.items) }
    requires life { life ≤ LONGEST_LIFE }
    requires number { ticket.now.number < 2 ^ 63 }
    requires unused { IsNewIn book.old page.now.instance ticket.now.number }
    ensures book { StaysSame book.old book.new }
    ensures placed { KeepsPlaces book.old book.new }
    ensures states { KeepsStates book.old book.new }
    ensures room { IfOk result (λ p. HasRoomFor p.change book.new) }
    ensures deadline { IfOk result (λ p. HasDeadlineBy p.change) }
    ensures reply { IfOk result (λ p. IsOfRun (reply_of p.reply)) }
    ensures refused { IfErr result (λ r. WantsRoom (reply_of r)) }
    ensures state { IfOk result (KeepsAnswerState ticket.now segment page.now) }
    ensures decided { AnswersBy book.old ticket.now page.now segment pages life result }
    ensures itself { IsOfAnswer book.old ticket.now segment page.now result }
{
    let Some(instance) = book.instance(page.instance) else {
        return Ok(unchanged(Reply::Refused(Refusal::Unknown)));
    };
    let Segment {
        outcome,
        effects,
        entered,
        left,
        cost: _,
    } = segment;
    match outcome {
        Outcome::Shown {
            page: bytes,
            kind,
            state,
        } => {
            let deadline = deadline(book.clock(), life);
            let next = ShownPage {
                kind,
                effects,
                inside: entered,
                left,
                deadline,
                state,
            };
            let made = extension(alloc, instance, ticket, page.page, bytes, next, pages);
            with_room(book, page.instance, made)
        }
        Outcome::Ended(bytes) => {
            let done = Done {
                effects,
                inside: entered,
                left,
            };
            match ending(alloc, instance, ticket, page.page, bytes, done) {
                Ok(prepared) => Ok(prepared),
                Err(_) => Err(Reply::Memory),
            }
        }
        Outcome::Finished(bytes) => {
            match finish(
                alloc,
                ticket,
                page.instance,
                page.page,
                bytes,
                effects,
                entered,
            ) {
                Ok(prepared) => Ok(prepared),
                Err(_) => Err(Reply::Memory),
            }
        }
        Outcome::Faulted(fault) => Ok(unchanged(Reply::Fault(fault))),
        Outcome::Fuel(cost) => Ok(unchanged(Reply::Fuel(cost))),
    }
}

/// Makes the reply and the change of a visit, and room for the change; nothing that the book stands for changes.
///
/// It asks for a number that is out and that is new in the visit's instance, for a life in its range in seconds, and for
/// effects on the instance's cells. The segment is the one over the present cells of an admitted target: then what is
/// prepared is what the visit comes to, and carries it out. For a page that it shows the least used pages go, so that no more
/// than `pages` are left, and it keeps the state of the segment. Whatever the ticket is for, what is prepared is a change of
/// its segment, or none, and carries itself out; its reply is one of a run, and a refusal is `ShelfFull` or want of memory.
pub fn prepare(
    alloc: Global,
    book: &mut Book,
    ticket: &Ticket,
    segment: Segment,
    instances: u32,
    pages: u32,
    life: u64,
) -> Result<Prepared, Reply>
    requires out { Contains book.old.out.items ticket.now.number }
    requires life { life ≤ LONGEST_LIFE }
    requires on { AreOnCells book.old ticket.now (map effect_of segment.effects.items) }
    requires unused { IsNew book.old ticket.now }
    ensures book { StaysSame book.old book.new }
    ensures placed { KeepsPlaces book.old book.new }
    ensures states { KeepsStates book.old book.new }
    ensures room { IfOk result (λ p. HasRoomFor p.change book.new) }
    ensures deadline { IfOk result (λ p. HasDeadlineBy p.change) }
    ensures reply { IfOk result (λ p. IsOfRun (reply_of p.reply)) }
    ensures refused { IfErr result (λ r. WantsRoom (reply_of r)) }
    ensures state { IfOk result (λ p. KeepsItsState ticket.now segment p.change) }
    ensures decided { IsPreparedBy book.old ticket.now segment instances pages life result }
    ensures itself { IfOk result (IsOfItsSegment book.old ticket.now segment) }
{
    match &ticket.target {
        Target::Start(_) => prepare_start(alloc, book, ticket, segment, instances, life),
        Target::Page(_, page) => prepare_page(alloc, book, ticket, page, segment, pages, life),
    }
}
