ghost use Rattle.std.specs.Prelude.{◌≡◌, option_map};
ghost use Rattle.script_value.specs.Views.{meaning};
ghost use Rattle.prim_spec.specs.Table as spec;

use script_value::{Items, Value};

/// The operand of an operation that takes one.
pub fn one(operands: Items) -> Option<Value>
    ensures { option_map meaning result ≡ spec.one operands }
{
    let mut values = operands.into_vec();
    if values.len() != 1 {
        return None;
    }
    values.pop()
}

/// The operands of an operation that takes two.
pub fn two(operands: Items) -> Option<(Value, Value)>
    ensures { option_map (λ p. (meaning p.0, meaning p.1)) result ≡ spec.two operands }
{
    let mut values = operands.into_vec();
    if values.len() != 2 {
        return None;
    }
    let second = values.pop()?;
    let first = values.pop()?;
    Some((first, second))
}
