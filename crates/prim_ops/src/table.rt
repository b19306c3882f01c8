ghost use Rattle.std.specs.Prelude.{◌≡◌, length, IsTrue};
ghost use Rattle.prim_spec.specs.Table as spec;
ghost use Rattle.prim_spec.specs.Table.{value_of};
ghost use Rattle.prim_ops.specs.Applied.{Applies};

use crate::bindings::{all_bindings, exists_binding, single_binding};
use crate::fault::ApplyFault;
use crate::kinds::{
    are_same, is_boolean, is_list, is_not, is_null, is_number, is_string, is_symbol,
};
use crate::lists::{append, car, cdr, cons, length, list, list_ref, reverse};
use crate::numbers::{
    add, are_equal, is_at_least, is_at_most, is_greater, is_less, multiply, quotient, remainder,
    subtract,
};
use crate::texts::{
    number_to_string, string_append, string_equal, string_length, string_to_number,
    string_to_symbol, symbol_to_string,
};
use script_value::{Items, Op, Value};
use std::alloc::Global;

// The operation of a name on numbers.
#[tactic(auto, unfolding(prim_spec::specs::Table::number_operation_of))]
fn number_operation_of(name: &str) -> Option<Op>
    ensures { result ≡ spec.number_operation_of name.now }
{
    match name {
        "+" => Some(Op::Add),
        "*" => Some(Op::Multiply),
        "-" => Some(Op::Subtract),
        "quotient" => Some(Op::Quotient),
        "remainder" => Some(Op::Remainder),
        "=" => Some(Op::Equal),
        "<" => Some(Op::Less),
        ">" => Some(Op::Greater),
        "<=" => Some(Op::AtMost),
        ">=" => Some(Op::AtLeast),
        _ => None,
    }
}

// The test of truth, of sameness or of what a value is that has a name.
#[tactic(auto, unfolding(prim_spec::specs::Table::test_of))]
fn test_of(name: &str) -> Option<Op>
    ensures { result ≡ spec.test_of name.now }
{
    match name {
        "not" => Some(Op::Not),
        "equal?" => Some(Op::IsEqual),
        "number?" => Some(Op::IsNumber),
        "string?" => Some(Op::IsString),
        "symbol?" => Some(Op::IsSymbol),
        "boolean?" => Some(Op::IsBoolean),
        "list?" => Some(Op::IsList),
        "null?" => Some(Op::IsNull),
        _ => None,
    }
}

// The operation of a name on lists.
#[tactic(auto, unfolding(prim_spec::specs::Table::list_operation_of))]
fn list_operation_of(name: &str) -> Option<Op>
    ensures { result ≡ spec.list_operation_of name.now }
{
    match name {
        "list" => Some(Op::List),
        "cons" => Some(Op::Cons),
        "car" => Some(Op::Car),
        "cdr" => Some(Op::Cdr),
        "append" => Some(Op::Append),
        "length" => Some(Op::Length),
        "reverse" => Some(Op::Reverse),
        "list-ref" => Some(Op::ListRef),
        _ => None,
    }
}

// The operation of a name on texts or answers.
#[tactic(auto, unfolding(prim_spec::specs::Table::text_operation_of))]
fn text_operation_of(name: &str) -> Option<Op>
    ensures { result ≡ spec.text_operation_of name.now }
{
    match name {
        "string-append" => Some(Op::StringAppend),
        "string-length" => Some(Op::StringLength),
        "string=?" => Some(Op::StringEqual),
        "number->string" => Some(Op::NumberToString),
        "string->number" => Some(Op::StringToNumber),
        "symbol->string" => Some(Op::SymbolToString),
        "string->symbol" => Some(Op::StringToSymbol),
        "extract-binding/single" => Some(Op::ExtractBindingSingle),
        "extract-bindings" => Some(Op::ExtractBindings),
        "exists-binding?" => Some(Op::ExistsBinding),
        _ => None,
    }
}

/// The operation that a name spells.
pub fn operation(name: &str) -> Option<Op>
    ensures { result ≡ spec.spelled name.now }
{
    number_operation_of(name)
        .or(test_of(name))
        .or(list_operation_of(name).or(text_operation_of(name)))
}

/// Whether an operation takes this number of operands.
pub fn takes(op: Op, count: usize) -> bool
    ensures { result ≡ spec.takes op count }
{
    match op {
        Op::Add | Op::Multiply | Op::List | Op::Append | Op::StringAppend => true,
        Op::Subtract => count > 0,
        Op::Not
        | Op::IsNumber
        | Op::IsString
        | Op::IsSymbol
        | Op::IsBoolean
        | Op::IsList
        | Op::IsNull
        | Op::Car
        | Op::Cdr
        | Op::Length
        | Op::Reverse
        | Op::StringLength
        | Op::NumberToString
        | Op::StringToNumber
        | Op::SymbolToString
        | Op::StringToSymbol => count == 1,
        Op::Quotient
        | Op::Remainder
        | Op::Equal
        | Op::Less
        | Op::Greater
        | Op::AtMost
        | Op::AtLeast
        | Op::IsEqual
        | Op::Cons
        | Op::ListRef
        | Op::StringEqual
        | Op::ExtractBindingSingle
        | Op::ExtractBindings
        | Op::ExistsBinding => count == 2,
    }
}

/// What an operation gives for its operands: its row of the table.
pub fn apply(alloc: Global, op: Op, operands: Items) -> Result<Value, ApplyFault>
    requires { IsTrue (spec.takes op (length operands)) }
    ensures { Applies result (value_of op operands) }
{
    match op {
        Op::Add => Ok(add(operands.as_slice())?),
        Op::Multiply => Ok(multiply(operands.as_slice())?),
        Op::Subtract => Ok(subtract(operands.as_slice())?),
        Op::Quotient => Ok(quotient(operands.as_slice())?),
        Op::Remainder => Ok(remainder(operands.as_slice())?),
        Op::Equal => Ok(are_equal(operands.as_slice())?),
        Op::Less => Ok(is_less(operands.as_slice())?),
        Op::Greater => Ok(is_greater(operands.as_slice())?),
        Op::AtMost => Ok(is_at_most(operands.as_slice())?),
        Op::AtLeast => Ok(is_at_least(operands.as_slice())?),
        Op::Not => Ok(is_not(operands.as_slice())?),
        Op::IsEqual => Ok(are_same(operands.as_slice())?),
        Op::IsNumber => Ok(is_number(operands.as_slice())?),
        Op::IsString => Ok(is_string(operands.as_slice())?),
        Op::IsSymbol => Ok(is_symbol(operands.as_slice())?),
        Op::IsBoolean => Ok(is_boolean(operands.as_slice())?),
        Op::IsList => Ok(is_list(operands.as_slice())?),
        Op::IsNull => Ok(is_null(operands.as_slice())?),
        Op::List => Ok(list(operands)?),
        Op::Cons => cons(operands),
        Op::Car => Ok(car(operands)?),
        Op::Cdr => Ok(cdr(operands)?),
        Op::Append => append(alloc, operands),
        Op::Length => Ok(length(operands.as_slice())?),
        Op::Reverse => Ok(reverse(operands)?),
        Op::ListRef => Ok(list_ref(operands)?),
        Op::StringAppend => string_append(alloc, operands.as_slice()),
        Op::StringLength => Ok(string_length(operands.as_slice())?),
        Op::StringEqual => Ok(string_equal(operands.as_slice())?),
        Op::NumberToString => number_to_string(alloc, operands.as_slice()),
        Op::StringToNumber => Ok(string_to_number(operands.as_slice())?),
        Op::SymbolToString => Ok(symbol_to_string(operands)?),
        Op::StringToSymbol => Ok(string_to_symbol(operands)?),
        Op::ExtractBindingSingle => single_binding(alloc, operands.as_slice()),
        Op::ExtractBindings => all_bindings(alloc, operands.as_slice()),
        Op::ExistsBinding => Ok(exists_binding(operands.as_slice())?),
    }
}
