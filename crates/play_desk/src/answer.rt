ghost use Rattle.std.specs.Prelude.{◌≡◌, IfOk};
ghost use Rattle.script_value.specs.Views.{meaning};
ghost use Rattle.play_desk.specs.Target as spec;

use http_forms::answer_of;
use script_value::Value;
use std::alloc::{AllocError, Global};

/// The answer that a query alone gives: the list of its pairs as bindings, in order.
pub fn answer_to(alloc: Global, query: &[u8]) -> Result<Value, AllocError>
    ensures { IfOk result (λ v. meaning v ≡ spec.answer_to query.now) }
{
    answer_of(alloc, query, &[])
}
