//! Entries, one after another.
use std::snapshot::Snapshot;

/// What happened, up to an entry. What was before that entry stands after a snapshot, which has no bytes and is read by
/// proofs alone.
#[derive(Drop)]
pub enum Past<E> {
    Nothing,
    Then { before: Snapshot<Past<E>>, entry: E },
}
