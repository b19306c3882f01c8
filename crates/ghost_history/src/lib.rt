//! A history that clauses see and that takes no memory: for racks, the site and what is kept of a serving.
#![tactic(auto)]

mod history;
mod past;

pub use history::History;
pub use past::Past;
