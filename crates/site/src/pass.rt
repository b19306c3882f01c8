use crate::kept::KeptShelf;
use lock_row::{RowNote, RowPass};

/// What one worker has seen of each shelf. Its caller is the worker's number.
pub type SitePass<D, N> = RowPass<KeptShelf<D, N>>;

/// What a worker had seen of each shelf.
pub type SiteNote<D, N> = RowNote<KeptShelf<D, N>>;
