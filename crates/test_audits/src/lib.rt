//! Tests of audits: of journals that a shelf wrote, in each format, and of such with a fault.
#![tactic(auto)]

#[cfg(test)]
mod audits;
#[cfg(test)]
mod bytes;
#[cfg(test)]
mod followers;
#[cfg(test)]
mod formats;
#[cfg(test)]
mod long;
#[cfg(test)]
mod troubles;
#[cfg(test)]
mod words;
