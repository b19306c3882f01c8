//! Tests of shelves that follow another one's journal, of what they are fed, and of feeds: cut, of other journals, over disks that stop or fail.
#![tactic(auto)]

#[cfg(test)]
mod adoptions;
#[cfg(test)]
mod cuts;
#[cfg(test)]
mod endings;
#[cfg(test)]
mod events;
#[cfg(test)]
mod feeds;
#[cfg(test)]
mod followed;
#[cfg(test)]
mod leaders;
#[cfg(test)]
mod long_feeds;
#[cfg(test)]
mod openings;
#[cfg(test)]
mod promotions;
#[cfg(test)]
mod stops;
#[cfg(test)]
mod sums;
