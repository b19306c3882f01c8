ghost use Rattle.std.specs.Prelude.{◌≡◌, map};
ghost use Rattle.script_value.specs.Views.{meaning};
ghost use Rattle.script_value.specs.declared.outcome.Op.TheVariants as op;
ghost use Rattle.script_value.specs.Val.{list, vals_of};
ghost use Rattle.prim_spec.specs.Same.{same};
ghost use Rattle.prim_spec.specs.Table.{is_empty_list, value_of};
ghost use Rattle.prim_ops.specs.Applied.{Answers};

use script_value::{Fault, Items, Value, equal};

/// Whether two values are of one kind and of the same contents.
pub fn are_same(values: &[Value]) -> Result<Value, Fault>
    ensures { Answers result (value_of op.IsEqual (map meaning values.now)) }
{
    match values {
        [left, right] => Ok(Value::Truth(same(left, right))),
        _ => Err(Fault::WrongType),
    }
}

fn same(left: &Value, right: &Value) -> bool
    ensures { result ≡ same (meaning left.now) (meaning right.now) }
{
    equal(left, right)
}

/// Whether a value is `#f`, which alone is false.
pub fn is_not(values: &[Value]) -> Result<Value, Fault>
    ensures { Answers result (value_of op.Not (map meaning values.now)) }
{
    match values {
        [Value::Truth(truth)] => Ok(Value::Truth(!*truth)),
        [_] => Ok(Value::Truth(false)),
        _ => Err(Fault::WrongType),
    }
}

/// Whether a value is a number.
pub fn is_number(values: &[Value]) -> Result<Value, Fault>
    ensures { Answers result (value_of op.IsNumber (map meaning values.now)) }
{
    match values {
        [Value::Int(_)] => Ok(Value::Truth(true)),
        [_] => Ok(Value::Truth(false)),
        _ => Err(Fault::WrongType),
    }
}

/// Whether a value is a text.
pub fn is_string(values: &[Value]) -> Result<Value, Fault>
    ensures { Answers result (value_of op.IsString (map meaning values.now)) }
{
    match values {
        [Value::Text(_)] => Ok(Value::Truth(true)),
        [_] => Ok(Value::Truth(false)),
        _ => Err(Fault::WrongType),
    }
}

/// Whether a value is a symbol.
pub fn is_symbol(values: &[Value]) -> Result<Value, Fault>
    ensures { Answers result (value_of op.IsSymbol (map meaning values.now)) }
{
    match values {
        [Value::Symbol(_)] => Ok(Value::Truth(true)),
        [_] => Ok(Value::Truth(false)),
        _ => Err(Fault::WrongType),
    }
}

/// Whether a value is a truth value.
pub fn is_boolean(values: &[Value]) -> Result<Value, Fault>
    ensures { Answers result (value_of op.IsBoolean (map meaning values.now)) }
{
    match values {
        [Value::Truth(_)] => Ok(Value::Truth(true)),
        [_] => Ok(Value::Truth(false)),
        _ => Err(Fault::WrongType),
    }
}

/// Whether a value is a list.
pub fn is_list(values: &[Value]) -> Result<Value, Fault>
    ensures { Answers result (value_of op.IsList (map meaning values.now)) }
{
    match values {
        [Value::List(_)] => Ok(Value::Truth(true)),
        [_] => Ok(Value::Truth(false)),
        _ => Err(Fault::WrongType),
    }
}

/// Whether a value is the empty list.
pub fn is_null(values: &[Value]) -> Result<Value, Fault>
    ensures { Answers result (value_of op.IsNull (map meaning values.now)) }
{
    match values {
        [Value::List(items)] => Ok(Value::Truth(is_empty_list(items))),
        [_] => Ok(Value::Truth(false)),
        _ => Err(Fault::WrongType),
    }
}

fn is_empty_list(items: &Items) -> bool
    ensures { result ≡ is_empty_list (list (vals_of items.now)) }
{
    items.is_empty()
}
