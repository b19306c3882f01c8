//! Links served from the shelves of a site by several workers, and what is kept of it: for `serve`.
#![tactic(auto)]

ghost use Rattle.site_serving.specs.Following.{FollowersPutVisitsOff};

mod crew;
mod keeping;
mod kept_past;
mod serving;
mod tallies;
mod worker;
mod workers;

pub use keeping::{NoPast, Past};
pub use kept_past::{KeptPast, KeptServing};
pub use serving::{ServingFault, Watch, serve_site};
pub use site::{BeginFault, Rules, Site, SiteFault};
pub use tallies::total;
use web_disk::Disk;
use web_outside::Nonces;
pub use worker::{Room, Worker};
pub use workers::serve_all;

/// A shelf that follows another one's journal shows no page: each visit is told that it follows, or why it is put off else.
pub fn followers_put_visits_off<D: Disk, N: Nonces>()
    ensures { FollowersPutVisitsOff D.view D.tells N.nonce }
{}
