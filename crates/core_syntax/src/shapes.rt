//! Parts of data.

ghost use Rattle.std.specs.Prelude.{◌≡◌, [], IfOk, option_map};
ghost use Rattle.script_value.specs.Val.{list};
ghost use Rattle.script_value.specs.Views.{meaning, meanings};
ghost use Rattle.core_syntax.specs.RowCores.{names_in};
ghost use Rattle.core_syntax.specs.Shapes.{symbol_in, is_word, begins, is_headed, bound_name, is_clause, are_clauses, ends_in_else};

use crate::names::Names;
use script_value::{Str, Value};
use std::alloc::{AllocError, Global};

/// Whether this is the symbol of these characters.
pub fn is_word(word: &str, value: &Value) -> bool
    ensures { result ≡ is_word word.now (meaning value.now) }
{
    match value {
        Value::Symbol(name) => name.as_str() == word,
        _ => false,
    }
}

/// Whether these begin with the symbol of these characters.
pub fn begins(word: &str, items: &[Value]) -> bool
    ensures { result ≡ begins word.now (meanings items.now) }
{
    match items {
        [] => false,
        [first, ..] => is_word(word, first),
    }
}

/// Whether this is a list that begins with the symbol of these characters.
pub fn is_headed(word: &str, value: &Value) -> bool
    ensures { result ≡ is_headed word.now (meaning value.now) }
{
    match value {
        Value::List(items) => begins(word, items.as_slice()),
        _ => false,
    }
}

/// The name of a binding, a list of a symbol and an expression.
pub fn bound_name(binding: &Value) -> Option<&Str>
    ensures { option_map (λ x. x.now) result ≡ bound_name (meaning binding.now) }
{
    match binding {
        Value::List(items) => name_of_two(items.as_slice()),
        _ => None,
    }
}

fn name_of_two(items: &[Value]) -> Option<&Str>
    ensures { option_map (λ x. x.now) result ≡ bound_name (list (meanings items.now)) }
{
    match items {
        [name, _expression] => symbol_in(name),
        [] => None,
        [_name] => None,
        [_name, _expression, _other, ..] => None,
    }
}

/// The names of bindings, the last innermost.
pub fn names_in<'a>(alloc: Global, bindings: &'a [Value]) -> Result<Names<'a>, AllocError>
    ensures { IfOk result (λ names. names ≡ names_in (meanings bindings.now) []) }
{
    let mut names = Names::new(alloc);
    for binding in bindings {
        if let Some(name) = bound_name(binding) {
            names.push(name)?;
        }
    }
    Ok(names)
}

/// The characters of a symbol.
pub fn symbol_in(value: &Value) -> Option<&Str>
    ensures { option_map (λ x. x.now) result ≡ symbol_in (meaning value.now) }
{
    match value {
        Value::Symbol(name) => Some(name),
        _ => None,
    }
}

/// Whether each clause of a `cond` is a list of a test and a body.
pub fn are_clauses(clauses: &[Value]) -> bool
    ensures { result ≡ are_clauses (meanings clauses.now) }
{
    for clause in clauses {
        if !is_clause(clause) {
            return false;
        }
    }
    true
}

fn is_clause(clause: &Value) -> bool
    ensures { result ≡ is_clause (meaning clause.now) }
{
    match clause {
        Value::List(items) => are_two(items.as_slice()),
        _ => false,
    }
}

fn are_two(items: &[Value]) -> bool
    ensures { result ≡ is_clause (list (meanings items.now)) }
{
    match items {
        [] => false,
        [_test] => false,
        [_test, _first, ..] => true,
    }
}

/// Whether the last clause of a `cond` is headed by `else`.
#[tactic(auto, using(crate::proofs::Parts::else_last))]
pub fn ends_in_else(clauses: &[Value]) -> bool
    ensures { result ≡ ends_in_else (meanings clauses.now) }
{
    match clauses.last() {
        None => false,
        Some(clause) => is_headed("else", clause),
    }
}
