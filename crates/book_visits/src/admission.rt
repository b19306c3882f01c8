ghost use Rattle.std.specs.Prelude.{◌≡◌, ℕ, IfSome, None, IfErr, OnOk};
ghost use Rattle.script_nodes.specs.Views.{named_of, library_of};
ghost use Rattle.page_names.specs.Views.{name_of};
ghost use Rattle.replay_spec.specs.Names.{first_closed};
ghost use Rattle.instance_book.specs.Makes.{HasPlaces};
ghost use Rattle.instance_book.specs.Places.{Source};
ghost use Rattle.book_visits.specs.Admissions.{IsWhyNot, has_name, IsPlaceAt, IsStartOf, IsAdmittedAs, IsPlacedAs, ResumesKept, ResumesWhereKept, refusal_for, IsRefusalFor};
ghost use Rattle.instance_book.specs.Standing.{IsPlacedAt, IsMarkedIn, HasItsMark, IsKeptWhere};

use expiry::expired;
use instance_book::{Book, Closed, KeptInstance, KeptPage, Numbered, Place, place_of_numbers};
use page_names::{PageName, ScriptName, Target};
use script_nodes::{Library, NamedScript};
use script_value::{Refusal, TxName};

/// What a target is admitted as.
#[derive(Clone, Copy)]
pub enum Admission<'a> {
    /// A start of the script of these places, in the present setup and among all.
    Begins {
        start: usize,
        place: usize,
        script: &'a NamedScript,
    },
    /// An answer to this page.
    Resumes(Place<'a>),
    Refused(Refusal),
}

// The outermost of these transactions that is closed.
fn first_closed(closed: &Closed, names: &[TxName]) -> Option<TxName>
    ensures { result ≡ first_closed closed.now names.now }
{
    for name in names {
        if closed.has(name) {
            return Some(*name);
        }
    }
    None
}

/// Why a page of an instance can't be answered at this clock; none where it can. The page stands in the instance.
pub fn why_not(
    clock: u64,
    instance: &Numbered<KeptInstance>,
    page: &Numbered<KeptPage>,
) -> Option<Refusal>
    requires { IsMarkedIn instance.now page.now }
    ensures { IsWhyNot clock instance.now page.now result }
{
    if instance.item.revoked.has(page.number) {
        return Some(Refusal::Revoked);
    }
    if let Some(name) = first_closed(&instance.item.closed, &page.item.inside) {
        return Some(Refusal::Closed(name));
    }
    if let Some(by) = page.item.gone {
        return Some(Refusal::Evicted(by));
    }
    if expired(clock, page.item.deadline) {
        return Some(Refusal::Expired(page.item.deadline));
    }
    None
}

// Whether a page of this script and with this nonce is so named, on this shelf.
fn is_named(
    script: &NamedScript,
    nonce: u64,
    shelf: u32,
    name: &ScriptName,
    page: &PageName,
) -> bool
    ensures { result ≡ has_name (named_of script.now) nonce shelf (name_of name.now) page.now }
{
    page.shelf == shelf && script.name.as_bytes() == name.as_bytes() && nonce == page.nonce
}

// The page of this script's name, this shelf, instance and number, and this nonce.
fn place_at<'a>(
    book: &'a Book,
    library: &'a Library,
    name: &ScriptName,
    page: &PageName,
) -> Option<Place<'a>>
    requires { HasPlaces (library_of library.now).all book.now }
    ensures place { IsPlaceAt (library_of library.now) book.now name.now page.now result }
    ensures placed { IfSome result (IsPlacedAt (library_of library.now).all) }
    ensures marked { IfSome result HasItsMark }
    ensures states { IsKeptWhere (library_of library.now) book.now result }
{
    let place = place_of_numbers(book, library, page.instance, page.page)?;
    let nonce = place.page.item.nonce;
    if is_named(place.script, nonce, book.shelf(), name, page) {
        Some(place)
    } else {
        None
    }
}

// What a start is admitted as.
fn admission_of_start<'a>(library: &'a Library, name: &ScriptName) -> Admission<'a>
    ensures admission { IsStartOf (library_of library.now) name.now result }
    ensures placed { IsPlacedAs (library_of library.now) result }
    ensures states { (shelf : Source ℕ)
        → ResumesKept (library_of library.now).all shelf result }
{
    let Some(start) = library.place(name) else {
        return Admission::Refused(Refusal::Unknown);
    };
    let Some(place) = library.start(start) else {
        return Admission::Refused(Refusal::Unknown);
    };
    match library.get(place) {
        Some(script) => Admission::Begins {
            start,
            place,
            script,
        },
        None => Admission::Refused(Refusal::Unknown),
    }
}

// What an answer to a page is admitted as.
fn admission_of_page<'a>(
    book: &'a Book,
    library: &'a Library,
    name: &ScriptName,
    page: &PageName,
) -> Admission<'a>
    requires { HasPlaces (library_of library.now).all book.now }
    ensures admission { IsAdmittedAs
        (library_of library.now) book.now (Target.Page name.now page.now) result }
    ensures placed { IsPlacedAs (library_of library.now) result }
    ensures states { ResumesWhereKept (library_of library.now) book.now result }
{
    let Some(place) = place_at(book, library, name, page) else {
        return Admission::Refused(Refusal::Unknown);
    };
    match why_not(book.clock(), place.instance, place.page) {
        Some(refusal) => Admission::Refused(refusal),
        None => Admission::Resumes(place),
    }
}

/// What a target is admitted as.
pub fn admission_to<'a>(book: &'a Book, library: &'a Library, target: &Target) -> Admission<'a>
    requires { HasPlaces (library_of library.now).all book.now }
    ensures admission { IsAdmittedAs (library_of library.now) book.now target.now result }
    ensures placed { IsPlacedAs (library_of library.now) result }
    ensures states { ResumesWhereKept (library_of library.now) book.now result }
{
    match target {
        Target::Start(name) => admission_of_start(library, name),
        Target::Page(name, page) => admission_of_page(book, library, name, page),
    }
}

/// Whether a target is admitted, and else why not. It takes no memory.
pub fn admit(book: &Book, library: &Library, target: &Target) -> Result<(), Refusal>
    requires { HasPlaces (library_of library.now).all book.now }
    ensures admitted { OnOk result
        (refusal_for (library_of library.now) book.now target.now ≡ None) }
    ensures refused { IfErr result (IsRefusalFor (library_of library.now) book.now target.now) }
{
    match admission_to(book, library, target) {
        Admission::Refused(refusal) => Err(refusal),
        Admission::Begins { .. } | Admission::Resumes(_) => Ok(()),
    }
}
