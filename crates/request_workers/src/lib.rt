//! A worker that serves links: it reads their requests, has each visited, and writes the replies; for the threads of a server.
#![tactic(auto)]

mod link;
mod read;
mod request;
mod serve;
mod tally;
mod worker;

pub use link::{LinkEnd, Links, serve_link};
pub use serve::{Served, serve_one};
pub use tally::{Tally, WorkEnd};
pub use worker::work;
