use book_recovery::books::InOrder;

/// How far a shelf that follows another one's journal was fed its records.
#[derive(Clone, Copy, Debug, PartialEq, Eq)]
pub enum Fed {
    /// It was fed none.
    Waits,
    /// It was fed the record that a journal begins with, and none after it.
    Begun,
    /// It was fed others after that one.
    Made,
}

/// What a shelf keeps beside its book that follows another one's journal.
#[derive(Drop)]
pub struct Follower {
    /// The numbers that the records told of.
    pub(crate) seen: InOrder<()>,
    pub(crate) fed: Fed,
    /// Where a call of the disk failed when a record was added: how often one had failed then. The shelf is fed no more.
    pub(crate) fallen: Option<u64>,
}
