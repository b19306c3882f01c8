//! Copies of a ticket, of what is prepared and of a book.
ghost use Rattle.std.specs.Prelude.{◌≡◌, ◌<◌, ◌^◌, [], None, IfOk, Contains};
ghost use Rattle.script_nodes.specs.Views.{library_of};
ghost use Rattle.book_visits.specs.Admissions.{HasFew, refusal_for};
ghost use Rattle.instance_book.specs.Changes.{HasRoomFor};
ghost use Rattle.instance_book.specs.Makes.{HasPlaces, HasSomeStates};

use crate::texts::{SUM, datum, is_datum, setup, target, text_of};
use book_visits::{Prepared, Ticket, admit, install, prepare, take_ticket};
use instance_book::Book;
use machine_states::{Outcome, Segment, Suspended};
use page_names::Target;
use script_nodes::{Library, SendKind};
use script_value::{Bytes, Items, Reply};
use std::alloc::Global;
use std::test::Fail;
use web_cells::Shades;

// A book of the shelf 7 with nothing in it, for the scripts of a library.
fn empty_book(alloc: Global, library: &Library) -> Book
    ensures placed { HasPlaces (library_of library.now).all result }
    ensures kept { HasSomeStates (library_of library.now).all result }
{
    let _ = library;
    Book::empty(alloc, 7)
}

// A ticket for a target that is admitted, whose answer is the number 3.
#[tactic(auto, using(crate::proofs::Books::ticket_out))]
fn take(alloc: Global, book: &mut Book, library: &Library, target: &Target) -> Result<Ticket, Fail>
    requires few { HasFew (library_of library.now) }
    requires admitted { refusal_for (library_of library.now) book.old target.now ≡ None }
    requires numbers { book.old.drawn < 2 ^ 62 }
    requires placed { HasPlaces (library_of library.now).all book.old }
    requires kept { HasSomeStates (library_of library.now).all book.old }
    ensures { IfOk result (λ t. Contains book.new.out.items t.number) }
{
    let answer = datum(alloc, "3")?;
    let ticket = take_ticket(alloc, book, library, target, answer, 10)?;
    Ok(ticket)
}

// A ticket for a start.
fn started(alloc: Global, book: &mut Book, library: &Library) -> Result<Ticket, Fail>
    requires placed { HasPlaces (library_of library.now).all book.old }
    requires kept { HasSomeStates (library_of library.now).all book.old }
    ensures { IfOk result (λ t. Contains book.new.out.items t.number) }
{
    if book.drawn() >= 1_000 {
        return Err(Fail::from("too many tickets"));
    }
    if library.present() >= 256 {
        return Err(Fail::from("too many scripts"));
    }
    let target = target("/servlets/s")?;
    if let Err(_refusal) = admit(book, library, &target) {
        return Err(Fail::from("not admitted"));
    }
    take(alloc, book, library, &target)
}

// Refuses a ticket whose copy is another than that of a start.
fn expect_copy(alloc: Global, ticket: &Ticket) -> Result<(), Fail> {
    let copy = ticket.try_clone(alloc)?;
    if copy.number == 0 && copy.nonce == 10 && is_datum(alloc, &copy.answer, "3")? {
        return Ok(());
    }
    Err(Fail::from("another ticket"))
}

// The stop at a page, with nothing kept.
fn stop(alloc: Global, page: Bytes) -> Outcome {
    Outcome::Shown {
        page,
        kind: SendKind::Suspend,
        state: Suspended {
            env: Items::new(alloc),
            frames: Vec::new(alloc),
            shades: Shades::root(alloc),
        },
    }
}

// A segment that showed a page, and did nothing else.
fn segment(alloc: Global, page: Bytes) -> Segment
    ensures { result.effects.items ≡ [] }
{
    Segment {
        outcome: stop(alloc, page),
        effects: Vec::new(alloc),
        entered: Vec::new(alloc),
        left: Vec::new(alloc),
        cost: 2,
    }
}

// What is prepared for a start that showed a page.
#[tactic(auto, using(crate::proofs::Books::none_on, crate::proofs::Books::new_start))]
fn prepared(alloc: Global, book: &mut Book, ticket: &Ticket) -> Result<Prepared, Fail>
    requires { Contains book.old.out.items ticket.now.number }
    ensures { IfOk result (λ p. HasRoomFor p.change book.new) }
{
    let Target::Start(_) = &ticket.target else {
        return Err(Fail::from("not for a start"));
    };
    let page = Bytes::new("a".as_bytes().to_vec(alloc)?);
    let segment = segment(alloc, page);
    match prepare(alloc, book, ticket, segment, 256, 64, 3_600) {
        Ok(prepared) => Ok(prepared),
        Err(_) => Err(Fail::from("not prepared")),
    }
}

// A copy of what is prepared, for which the book has room too.
fn copied(alloc: Global, book: &Book, prepared: &Prepared) -> Result<Prepared, Fail>
    requires { HasRoomFor prepared.now.change book.now }
    ensures { IfOk result (λ p. HasRoomFor p.change book.now) }
{
    let _ = book;
    let copy = prepared.try_clone(alloc)?;
    Ok(copy)
}

// A copy of what is prepared for a ticket.
fn copied_for(alloc: Global, book: &mut Book, ticket: &Ticket) -> Result<Prepared, Fail>
    requires { Contains book.old.out.items ticket.now.number }
    ensures { IfOk result (λ p. HasRoomFor p.change book.new) }
{
    let prepared = prepared(alloc, book, ticket)?;
    copied(alloc, book, &prepared)
}

// A copy of what is prepared for a start is installed.
fn installed(alloc: Global, book: &mut Book, library: &Library) -> Result<Reply, Fail>
    requires placed { HasPlaces (library_of library.now).all book.old }
    requires kept { HasSomeStates (library_of library.now).all book.old }
{
    let ticket = started(alloc, book, library)?;
    expect_copy(alloc, &ticket)?;
    let copy = copied_for(alloc, book, &ticket)?;
    Ok(install(book, copy))
}

// Whether the reply is that page, and the book has its instance alone.
fn has_page(book: &Book, reply: &Reply) -> Result<bool, Fail> {
    let is_told = match reply {
        Reply::Page { bytes, url } => {
            text_of(bytes)? == "a" && text_of(url)? == "/servlets/s;7*0*0*000000000000000a"
        }
        _ => false,
    };
    Ok(is_told && book.live() == 1 && book.cells(0).is_some())
}

// How many instances are left once a copy of a book was swept: of the copy, and of the book.
fn left_behind_a_copy(alloc: Global, book: &Book) -> Result<(u32, u32), Fail> {
    let mut copy = book.try_clone(alloc)?;
    if copy.clock() >= 3_600 {
        return Err(Fail::from("late"));
    }
    copy.free_expired(3_600);
    Ok((copy.live(), book.live()))
}

#[test]
fn copies_of_a_book_and_of_what_it_gives_are_alike(rt: HostRuntime) -> Result<(), Fail> {
    let alloc = rt.alloc();
    let library = Library::of(setup(alloc, &[("s", SUM)])?);
    let mut book = empty_book(alloc, &library);
    let reply = installed(alloc, &mut book, &library)?;
    assert!(rt; has_page(&book, &reply)?);
    assert_eq!(rt; left_behind_a_copy(alloc, &book)?, (0, 1));
    Ok(())
}
