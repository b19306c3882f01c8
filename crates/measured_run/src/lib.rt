//! A measured run: its setup, its steps, drawn from a number and from the replies, and what is counted of it: for `load`.
#![tactic(auto)]

ghost use Rattle.measured_run.specs.Laws.{AsksFourWorkers, NextIsStep, UrlsAreKept};

mod fnv;
mod generator;
mod measuring;
mod script;
mod setup;
mod step;
mod tally;

pub use fnv::{Fnv1a, hash_goes_on, hex_digits};
pub use generator::Generator;
pub use measuring::{LOAD_STEPS, Measure, load};
pub use script::{LoadScript, setup_text};
pub use setup::{load_setup, the_text_is_a_setup};
pub use step::LoadStep;
pub use tally::Tally;

/// The next step asks of the workers 0 to 3 alone whether they hold a ticket.
#[tactic(auto, using(crate::proofs::Drawn::four_workers))]
pub fn four_workers_are_asked()
    ensures { AsksFourWorkers }
{}

/// The next step is in its ranges where there is a shelf, the clock is early enough and the URLs
/// that are kept are targets.
#[tactic(auto, using(crate::proofs::Fits::next_fits))]
pub fn next_is_a_step()
    ensures { NextIsStep }
{}

/// Where the URLs that are kept are targets, they are so with one more that is a target.
#[tactic(auto, using(crate::proofs::Fits::urls_kept))]
pub fn urls_are_kept()
    ensures { UrlsAreKept }
{}
