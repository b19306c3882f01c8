ghost use Rattle.std.specs.Prelude.{◌≡◌, ◌<◌, ◌^◌, length, IfOk, IsTrue};
ghost use Rattle.script_value.specs.Views.{meaning};
ghost use Rattle.prim_spec.specs.Table.{is_false, takes, value_of};
ghost use Rattle.segments.specs.ReplaySpec.Tape.{answer, as_number};
ghost use Rattle.segment_progress.specs.Counts.{count_of};
ghost use Rattle.segment_progress.specs.States.{state_of, inside_of, Gives, TellsStop};
ghost use Rattle.segment_progress.specs.declared.progress.Progress.{Progress as Steps};

use crate::halt::Halt;
use prim_ops::{ApplyFault, apply};
use script_value::{Fault, Items, Op, Value};
use segments::RunEnd;
use std::alloc::Global;

/// Whether a value is #f, the only one that is false.
pub fn is_false(value: &Value) -> bool
    ensures { result ≡ is_false (meaning value.now) }
{
    match value {
        Value::Truth(truth) => !*truth,
        _ => false,
    }
}

/// How many turns a value says; WrongType where it is no number, or one that is negative.
pub fn turn_count(count: Value) -> Result<u64, Fault>
    ensures count { result ≡ count_of (as_number (meaning count)) }
    ensures low { IfOk result (λ n. n < 2 ^ 63) }
{
    match count {
        Value::Int(count) => {
            if count < 0 {
                return Err(Fault::WrongType);
            }
            Ok(count as u64)
        }
        _ => Err(Fault::WrongType),
    }
}

/// The value of an operation, or the stop at its fault, which takes no memory.
pub fn applied(alloc: Global, op: Op, operands: Items) -> Result<Value, Halt>
    requires { IsTrue (takes op (length operands)) }
    ensures gives { (p : Steps) → Gives meaning result p (answer (inside_of p) (value_of op operands) (state_of p)) }
    ensures told { (p : Steps) → TellsStop result (answer (inside_of p) (value_of op operands) (state_of p)) }
{
    match apply(alloc, op, operands) {
        Ok(value) => Ok(value),
        Err(ApplyFault::Fault(fault)) => Err(Halt::Stopped(RunEnd::Faulted(fault))),
        Err(ApplyFault::Memory) => Err(Halt::Memory),
    }
}
