//! Tests of requests, of replies and of workers: rows of what bytes ask for and of what is sent, and links in memory that workers serve.
#![tactic(auto)]

#[cfg(test)]
mod counter;
#[cfg(test)]
mod links;
#[cfg(test)]
mod pieces;
#[cfg(test)]
mod porches;
#[cfg(test)]
mod replies;
#[cfg(test)]
mod requests;
#[cfg(test)]
mod streams;
#[cfg(test)]
mod texts;
