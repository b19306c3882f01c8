ghost use Rattle.std.specs.Prelude.{◌≡◌, map};
ghost use Rattle.instance_cells.specs.Views.{effect_of};
ghost use Rattle.segments.specs.Views.{outcome_of, segment_of};
ghost use Rattle.replay_spec.specs.Recovery as spec;
ghost use Rattle.journal_records.specs.Views.{effects_in};
ghost use Rattle.audit_spec.specs.Tests.{ends_so, finishes_so};
ghost use Rattle.record_audit.specs.Runs.{is_shown, shows_again};

use book_redo::are_same_effects;
use instance_cells::Effect;
use journal_records::{EndedRecord, FinishRecord, PageRecord};
use script_nodes::SendKind;
use script_value::TxName;
use segments::{RunEnd, RunResult};

// Whether these are the same effects, in the same order.
fn are_effects(left: &[Effect], right: &[Effect]) -> bool
    ensures { result ≡ spec.are_effects (map effect_of left.now) (map effect_of right.now) }
{
    are_same_effects(left, right)
}

// Whether these are the same transactions, in the same order.
fn are_names(left: &[TxName], right: &[TxName]) -> bool
    ensures { result ≡ spec.are_names left.now right.now }
{
    left == right
}

// Whether a run stopped with a page of this kind that waits for an answer.
fn is_of_kind(end: &RunEnd, kind: SendKind) -> bool
    ensures { result ≡ is_shown kind (outcome_of end.now) }
{
    match end {
        RunEnd::Shown { kind: shown, .. } => *shown == kind,
        _ => false,
    }
}

/// Whether a run shows a page of the record's kind, with its effects, and leaves its transactions.
pub fn shows_so(ran: &RunResult, page: &PageRecord) -> bool
    ensures { result ≡ shows_again page.now (segment_of ran.now) }
{
    is_of_kind(&ran.end, page.kind)
        && are_effects(&ran.effects, &page.effects)
        && are_names(&ran.left, &page.left)
}

/// Whether a run stops with a last page, with the record's effects, and leaves its transactions.
pub fn ends_so(ran: &RunResult, ended: &EndedRecord) -> bool
    ensures { result
        ≡ ends_so (effects_in ended.now.effects) ended.now.left.items (segment_of ran.now) }
{
    matches!(&ran.end, RunEnd::Ended(_))
        && are_effects(&ran.effects, &ended.effects)
        && are_names(&ran.left, &ended.left)
}

/// Whether a run stops with a page that frees the instance, with the record's effects.
pub fn finishes_so(ran: &RunResult, finish: &FinishRecord) -> bool
    ensures { result ≡ finishes_so (effects_in finish.now.effects) (segment_of ran.now) }
{
    matches!(&ran.end, RunEnd::Finished(_)) && are_effects(&ran.effects, &finish.effects)
}
