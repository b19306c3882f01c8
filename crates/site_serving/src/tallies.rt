//! What workers counted together.
ghost use Rattle.std.specs.Prelude.{◌≡◌, ◌≤◌, ◌*◌, ◌+◌, All, length};
ghost use Rattle.request_workers.specs.Tallies.{count_of, IsBelow};
ghost use Rattle.server_limits.specs.Counts.{most_workers};
ghost use Rattle.site_serving.specs.Totals.{end_of, end_with, total};

use request_workers::{Tally, WorkEnd};

// Of two ends a failure is told.
fn end_with(first: WorkEnd, later: WorkEnd) -> WorkEnd
    ensures { result ≡ end_with first later }
{
    match first {
        WorkEnd::Done => later,
        WorkEnd::Failed => WorkEnd::Failed,
    }
}

/// The sums of what was counted. Its end is a failure where one of the ends is.
pub fn total(tallies: &[Tally]) -> Tally
    requires few { length tallies.now ≤ most_workers }
    requires small { All (λ t. IsBelow (count_of t) 1000000001) tallies.now }
    ensures count { count_of result ≡ total tallies.now }
    ensures end { result.end ≡ end_of tallies.now }
    ensures bound { IsBelow (count_of result) (1000000000 * length tallies.now + 1) }
{
    match tallies {
        [] => Tally::nothing(),
        [first, rest @ ..] => {
            let later = total(rest);
            Tally {
                pages: first.pages + later.pages,
                refused: first.refused + later.refused,
                failed: first.failed + later.failed,
                dropped: first.dropped + later.dropped,
                end: end_with(first.end, later.end),
            }
        }
    }
}
