//! Definitions of tasks, and the names that forms define.

ghost use Rattle.std.specs.Prelude.{◌≡◌, [], IfOk, option_map};
ghost use Rattle.script_value.specs.Val.{list};
ghost use Rattle.script_value.specs.Views.{meaning, meanings};
ghost use Rattle.core_syntax.specs.Headings as spec;
ghost use Rattle.core_syntax.specs.RowsSeen.{name_seen};
ghost use Rattle.core_syntax.specs.DefinitionsSeen.{IsTaskNamed, task_form};

use crate::definitions::definition_of;
use crate::names::Names;
use crate::rows::is_empty;
use crate::shapes::{is_headed, symbol_in};
use script_value::{Str, Value};
use std::alloc::{AllocError, Global};

/// A task that a form defines.
#[derive(Clone, Copy)]
pub struct TaskForm<'a> {
    pub name: &'a Str,
    pub parameters: &'a [Value],
    pub body: &'a [Value],
}

/// The task that a form defines.
pub fn task_of(form: &Value) -> Option<TaskForm<'_>>
    ensures { option_map task_form result ≡ spec.task_of (meaning form.now) }
{
    match form {
        Value::List(items) => task_in(items.as_slice()),
        _ => None,
    }
}

fn task_in(items: &[Value]) -> Option<TaskForm<'_>>
    ensures { option_map task_form result ≡ spec.task_of (list (meanings items.now)) }
{
    match items {
        [_define, heading, body @ ..] => task_by(heading, body),
        [] => None,
        [_define] => None,
    }
}

fn task_by<'a>(heading: &'a Value, body: &'a [Value]) -> Option<TaskForm<'a>>
    ensures { option_map task_form result ≡ spec.task_by (meaning heading.now) (meanings body.now) }
{
    match heading {
        Value::List(items) => task_headed(items.as_slice(), body),
        _ => None,
    }
}

fn task_headed<'a>(heading: &'a [Value], body: &'a [Value]) -> Option<TaskForm<'a>>
    ensures { option_map task_form result
        ≡ spec.task_headed (meanings heading.now) (meanings body.now) }
{
    match heading {
        [] => None,
        [name, parameters @ ..] => task_named(symbol_in(name), parameters, body),
    }
}

fn task_named<'a>(
    name: Option<&'a Str>,
    parameters: &'a [Value],
    body: &'a [Value],
) -> Option<TaskForm<'a>>
    ensures { IsTaskNamed result (name_seen name.entry) parameters.now body.now }
{
    match name {
        None => None,
        Some(name) => {
            if is_empty(body) || !are_symbols(parameters) {
                return None;
            }
            Some(TaskForm {
                name,
                parameters,
                body,
            })
        }
    }
}

/// Whether all of these are symbols.
fn are_symbols(values: &[Value]) -> bool
    ensures { result ≡ spec.are_symbols (meanings values.now) }
{
    for value in values {
        if symbol_in(value).is_none() {
            return false;
        }
    }
    true
}

/// The name that a form defines.
pub fn name_defined(form: &Value) -> Option<&Str>
    ensures { option_map (λ x. x.now) result ≡ spec.name_defined (meaning form.now) }
{
    if is_headed("define", form) {
        return Some(definition_of(form)?.name);
    }
    if is_headed("define-task", form) {
        return Some(task_of(form)?.name);
    }
    None
}

/// The names of parameters, the last innermost.
pub fn parameter_names<'a>(alloc: Global, parameters: &'a [Value]) -> Result<Names<'a>, AllocError>
    ensures { IfOk result (λ names. names ≡ spec.symbols_in (meanings parameters.now) []) }
{
    let mut names = Names::new(alloc);
    for parameter in parameters {
        if let Some(name) = symbol_in(parameter) {
            names.push(name)?;
        }
    }
    Ok(names)
}
