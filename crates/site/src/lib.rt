//! The shelves of a server behind their locks, visited by many threads: for the serving of links.
#![tactic(auto)]

ghost use Rattle.site.specs.Laws.{ClosedIsClosedOverThreads, WhatASiteLeftIsSound};

mod begin;
mod entry;
mod fault;
mod kept;
mod opening;
mod pass;
mod running;
mod site;
mod tick;

pub use entry::{Did, KeptEntry};
pub use fault::SiteFault;
use history_spec::{books_behind_are_sound, closed_is_closed, histories_go_on};
pub use kept::KeptShelf;
pub use opening::Opening;
pub use pass::{SiteNote, SitePass};
pub use running::Running;
use shelf::a_reopened_shelf_is_sound;
pub use shelf::{BeginFault, Rules};
pub use site::Site;
use web_disk::Disk;
use web_outside::Nonces;

/// In a history of a closed site no entry leaves a transaction that another left before, of whichever worker; each on a page that
/// is inside it is refused without effect. So it is of a shelf that was opened as an own one.
pub fn closed_is_closed_over_threads<D: Disk, N: Nonces>()
    ensures { ClosedIsClosedOverThreads D.view D.tells N.nonce }
{
    closed_is_closed();
    histories_go_on();
}

/// A shelf that is opened on what a closed site left of one that was opened as an own one, with a sound book, has a sound book: so
/// what is closed stays closed over the next site's threads.
pub fn what_a_site_left_is_sound<D: Disk, N: Nonces>()
    ensures { WhatASiteLeftIsSound D.view D.tells N.nonce }
{
    books_behind_are_sound();
    a_reopened_shelf_is_sound::<D>();
}
