//! Definitions of cells.

ghost use Rattle.std.specs.Prelude.{◌≡◌, option_map};
ghost use Rattle.script_value.specs.Val.{list};
ghost use Rattle.script_value.specs.Views.{meaning, meanings};
ghost use Rattle.core_syntax.specs.Headings as spec;
ghost use Rattle.core_syntax.specs.DefinitionsSeen.{definition, maker};

use crate::heads::CellKind;
use crate::shapes::{is_word, symbol_in};
use script_value::{Str, Value};

/// What a definition says.
#[derive(Clone, Copy)]
pub struct Definition<'a> {
    pub kind: CellKind,
    pub name: &'a Str,
    pub value: &'a Value,
}

/// What a definition's last part says.
#[derive(Clone, Copy)]
pub struct Maker<'a> {
    pub kind: CellKind,
    pub value: &'a Value,
}

/// The definition that a form is.
pub fn definition_of(form: &Value) -> Option<Definition<'_>>
    ensures { option_map definition result ≡ spec.definition_of (meaning form.now) }
{
    match form {
        Value::List(items) => definition_in(items.as_slice()),
        _ => None,
    }
}

fn definition_in(items: &[Value]) -> Option<Definition<'_>>
    ensures { option_map definition result ≡ spec.definition_of (list (meanings items.now)) }
{
    match items {
        [_define, name, maker] => definition_with(name, maker),
        [] => None,
        [_define] => None,
        [_define, _name] => None,
        [_define, _name, _maker, _other, ..] => None,
    }
}

fn definition_with<'a>(name: &'a Value, made: &'a Value) -> Option<Definition<'a>>
    ensures { option_map definition result ≡ spec.defined_by (meaning name.now) (meaning made.now) }
{
    let name = symbol_in(name)?;
    let maker = maker_of(made)?;
    Some(Definition {
        kind: maker.kind,
        name,
        value: maker.value,
    })
}

fn maker_of(value: &Value) -> Option<Maker<'_>>
    ensures { option_map maker result ≡ spec.maker_of (meaning value.now) }
{
    match value {
        Value::List(items) => maker_in(items.as_slice()),
        _ => None,
    }
}

fn maker_in(items: &[Value]) -> Option<Maker<'_>>
    ensures { option_map maker result ≡ spec.maker_of (list (meanings items.now)) }
{
    match items {
        [word, value] => maker_with(word, value),
        [] => None,
        [_word] => None,
        [_word, _value, _other, ..] => None,
    }
}

fn maker_with<'a>(word: &Value, value: &'a Value) -> Option<Maker<'a>>
    ensures { option_map maker result ≡ spec.made_by (meaning word.now) (meaning value.now) }
{
    let kind = kind_made(word)?;
    let value = constant(value)?;
    Some(Maker { kind, value })
}

fn kind_made(word: &Value) -> Option<CellKind>
    ensures { result ≡ spec.kind_made (meaning word.now) }
{
    if is_word("make-web-cell", word) {
        return Some(CellKind::Web);
    }
    if is_word("make-instance-cell", word) {
        return Some(CellKind::Instance);
    }
    None
}

fn constant(value: &Value) -> Option<&Value>
    ensures { option_map (λ v. meaning v.now) result ≡ spec.constant (meaning value.now) }
{
    match value {
        Value::Int(_) => Some(value),
        Value::Truth(_) => Some(value),
        Value::Text(_) => Some(value),
        Value::Symbol(_) => None,
        Value::List(items) => quoted(items.as_slice()),
    }
}

fn quoted(items: &[Value]) -> Option<&Value>
    ensures { option_map (λ v. meaning v.now) result ≡ spec.constant (list (meanings items.now)) }
{
    match items {
        [word, value] => quoted_by(word, value),
        [] => None,
        [_word] => None,
        [_word, _value, _other, ..] => None,
    }
}

fn quoted_by<'a>(word: &Value, value: &'a Value) -> Option<&'a Value>
    ensures { option_map (λ v. meaning v.now) result ≡ spec.quoted_by (meaning word.now) (meaning value.now) }
{
    if is_word("quote", word) {
        Some(value)
    } else {
        None
    }
}
