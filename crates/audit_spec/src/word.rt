/// Why an audit says No to a record. Of several reasons the first in this order is told.
#[derive(Clone, Copy, Debug, PartialEq, Eq)]
pub enum Word {
    /// A sweep is at or below the clock.
    Sweep,
    /// The number of the segment stands in an earlier record too.
    Number,
    /// The page that is answered can't be answered: it is not there, or it was revoked, closed, evicted or expired.
    Target,
    /// The script, run again from its start, does not stop so.
    Run,
    /// The pages that went are not the least used.
    Evicted,
    /// The deadline is at or below the clock, or farther above it than any life reaches.
    Deadline,
    /// The stored state is not the one that the script leaves.
    State,
}
