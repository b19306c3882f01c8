use shelf::Shelf;
use std::snapshot::Snapshot;
use web_disk::Disk;

/// A shelf as it was opened. It has no bytes.
#[derive(Drop)]
pub struct Opening<D: Disk, N> {
    pub shelf: Snapshot<Shelf<D, N>>,
}
