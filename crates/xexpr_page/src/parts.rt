ghost use Rattle.std.specs.Prelude.{◌≡◌, ◌≤◌, option_map};
ghost use Rattle.script_value.specs.Val.{depth_all};
ghost use Rattle.script_value.specs.Views.{meaning, meanings};
ghost use Rattle.page_spec.specs.Page as spec;

use script_value::Value;

/// The attributes that a value after an element's name is.
pub fn attributes_in(value: &Value) -> Option<&[Value]>
    ensures { option_map (λ items. meanings items.now) result ≡ spec.attributes_in (meaning value.now) }
{
    match value {
        Value::List(items) => {
            let items = items.as_slice();
            if are_attributes(items) {
                Some(items)
            } else {
                None
            }
        }
        _ => None,
    }
}

// Whether these items are attributes: none, or a list first.
fn are_attributes(items: &[Value]) -> bool
    ensures { spec.AreAttributes (meanings items.now) result }
{
    match items {
        [] => true,
        [first, ..] => match first {
            Value::List(_) => true,
            Value::Int(_) | Value::Truth(_) | Value::Text(_) | Value::Symbol(_) => false,
        },
    }
}

/// The attributes and the children among the parts after an element's name.
pub fn split_attributes(parts: &[Value]) -> (&[Value], &[Value])
    ensures split { spec.AreSplit (meanings parts.now) (meanings result.0.now) (meanings result.1.now) }
    ensures within { depth_all (meanings result.1.now) ≤ depth_all (meanings parts.now) }
{
    match parts {
        [] => (&[], &[]),
        [first, children @ ..] => match attributes_in(first) {
            Some(attributes) => (attributes, children),
            None => (&[], parts),
        },
    }
}
