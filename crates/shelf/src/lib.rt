//! One shelf: a book, its journal, a source of nonces and limits; each call is one event: for `play` and for the site.
#![tactic(auto)]

ghost use Rattle.std.specs.Prelude.{IsTrue};
ghost use Rattle.shelf.specs.Going.{TicketsGoOnToFit};
ghost use Rattle.shelf.specs.Opening.{AReopenedShelfHasCrashed, AReopenedShelfIsSound, AStandingDiskOpens};

mod adopt;
mod begin;
mod body;
mod compaction;
mod doubt;
mod each;
mod fed;
mod follower;
mod migration;
mod nesting;
mod numbered;
mod prepare;
mod present;
mod promote;
mod publish;
mod recording;
mod reopen;
mod rules;
mod run;
mod second;
mod shelf;
mod sweep;
mod take;

pub use adopt::AdoptFault;
pub use begin::BeginFault;
pub use book_recovery::journal_laws::images_make_books;
pub use book_recovery::runs::Segment;
pub use book_visits::Ticket;
pub use doubt::{Doubt, Work};
pub use follower::{Fed, Follower};
pub use journal_records::is_role;
pub use page_journal::Take;
use replay_spec::{orderly_books_stay, pages_stay};
pub use rules::Rules;
pub use run::run_ticket;
pub use shelf::Shelf;
pub use web_disk::Disk;
pub use web_outside::{Failed, Sink, Source, write_all};
pub use wire_bytes::{u32_from_wire, u32_to_wire};

/// A ticket that fits the book of its take goes on to fit: a page that was shown stays as it is while its instance lives, so
/// what `publish` asks of a ticket is kept by every lawful event of the shelf, whatever stands in its journal.
pub fn tickets_go_on_to_fit()
    ensures { TicketsGoOnToFit }
{
    orderly_books_stay();
    pages_stay();
}

/// A shelf that is opened on what a crash left of a shelf in order, with whichever setup, is that shelf after the event crash that
/// gives this setup, what was in doubt lost or kept.
pub fn a_reopened_shelf_has_crashed<D: Disk>()
    ensures { AReopenedShelfHasCrashed D.view }
{}

/// A shelf that is opened on what a crash left of a shelf in order has a sound book, where that shelf's was sound. The book of a
/// new journal is, and so is each that a legal history leads to from a sound one.
pub fn a_reopened_shelf_is_sound<D: Disk>()
    ensures { AReopenedShelfIsSound D.view }
{}

/// A disk that a crash left of a shelf in order is neither damaged nor another shelf's, so opening it fails for the outside, or
/// where the journal has no room for another setup.
pub fn a_standing_disk_opens<D: Disk>()
    ensures { IsTrue D.tells → AStandingDiskOpens D.view }
{}
