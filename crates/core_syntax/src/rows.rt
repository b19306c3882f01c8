//! The row of the table of forms that data are. It takes no memory to tell it, or the fault that is seen first.

ghost use Rattle.std.specs.Prelude.{◌≡◌};
ghost use Rattle.script_value.specs.Views.{meaning, meanings};
ghost use Rattle.core_syntax.specs.Forms.{written as spec_written};
ghost use Rattle.core_syntax.specs.Shapes.{is_empty as spec_is_empty};
ghost use Rattle.core_syntax.specs.Rows as spec;
ghost use Rattle.core_syntax.specs.RowsSeen.{IsFunctionBy, bound_parts, name_seen, seen, seen_row};

use crate::cell_names::CellNames;
use crate::faults::SyntaxKind;
use crate::heads::{CellKind, Head, LastPage, Store, head_of};
use crate::names::Names;
use crate::shapes::{are_clauses, bound_name, ends_in_else, is_word, symbol_in};
use crate::templates::is_template;
use prim_ops::takes;
use script_nodes::SendKind;
use script_value::{Op, Str, Value};

/// A form whose head, names and number of parts are as the table says.
#[derive(Clone, Copy)]
pub enum Row<'a> {
    Literal(&'a Value),
    /// A variable, by its place.
    Variable(usize),
    Template(&'a Value),
    Let(Bound<'a>),
    LetInTurn(Bound<'a>),
    Begin(&'a [Value]),
    If(&'a Value, &'a Value, &'a Value),
    Cond(&'a [Value]),
    And(&'a [Value]),
    Or(&'a [Value]),
    /// The variable, the count and the body.
    For(&'a Str, &'a Value, &'a [Value]),
    Ref(CellKind, u8),
    Store(Store, u8, &'a Value),
    /// The variable and the body of the page.
    Send(SendKind, &'a Str, &'a [Value]),
    Last(LastPage, &'a Value),
    Isolate(&'a Value),
    Apply(Op, &'a [Value]),
    /// A task, by its number, and its operands.
    Call(u8, &'a [Value]),
}

/// Bindings, and the body after them.
#[derive(Clone, Copy)]
pub struct Bound<'a> {
    pub bindings: &'a [Value],
    pub body: &'a [Value],
}

/// The row of a form with these cells and within these variables, in a page or not.
pub fn row_of<'a>(
    cells: &CellNames<'_>,
    scope: &Names<'_>,
    in_page: bool,
    form: &'a Value,
) -> Result<Row<'a>, SyntaxKind>
    ensures { seen_row result ≡ spec.row_of cells.now scope.now in_page (meaning form.now) }
{
    match form {
        Value::Int(_) => Ok(Row::Literal(form)),
        Value::Truth(_) => Ok(Row::Literal(form)),
        Value::Text(_) => Ok(Row::Literal(form)),
        Value::Symbol(name) => variable(scope, name),
        Value::List(items) => row_in(cells, in_page, items.as_slice()),
    }
}

fn variable<'a>(scope: &Names<'_>, name: &Str) -> Result<Row<'a>, SyntaxKind>
    ensures { seen_row result ≡ spec.variable_in scope.now name.now }
{
    match scope.place_of(name) {
        None => Err(SyntaxKind::Unbound),
        Some(place) => Ok(Row::Variable(place)),
    }
}

fn row_in<'a>(
    cells: &CellNames<'_>,
    in_page: bool,
    items: &'a [Value],
) -> Result<Row<'a>, SyntaxKind>
    ensures { seen_row result ≡ spec.row_in cells.now in_page (meanings items.now) }
{
    match items {
        [] => Err(SyntaxKind::Shape),
        [first, parts @ ..] => row_by(cells, in_page, head_in(first), parts),
    }
}

fn head_in(first: &Value) -> Option<Head>
    ensures { result ≡ spec.head_in (meaning first.now) }
{
    match first {
        Value::Symbol(name) => head_of(name.as_str()),
        _ => None,
    }
}

/// The row of a head with these parts.
fn row_by<'a>(
    cells: &CellNames<'_>,
    in_page: bool,
    head: Option<Head>,
    parts: &'a [Value],
) -> Result<Row<'a>, SyntaxKind>
    ensures { seen_row result ≡ spec.row_by cells.now in_page head (meanings parts.now) }
{
    match head {
        None => Err(SyntaxKind::Shape),
        Some(Head::Define) => Err(SyntaxKind::Shape),
        Some(Head::DefineTask) => Err(SyntaxKind::Shape),
        Some(Head::Quote) => Ok(Row::Literal(only_part(parts)?)),
        Some(Head::Quasiquote) => template_in(parts),
        Some(Head::Let) => Ok(Row::Let(bound_in(cells, parts)?)),
        Some(Head::LetInTurn) => Ok(Row::LetInTurn(bound_in(cells, parts)?)),
        Some(Head::Begin) => begin_in(parts),
        Some(Head::If) => choice_in(parts),
        Some(Head::Cond) => clauses_in(parts),
        Some(Head::And) => Ok(Row::And(parts)),
        Some(Head::Or) => Ok(Row::Or(parts)),
        Some(Head::For) => turns_in(cells, parts),
        Some(Head::Ref(kind)) => ref_in(cells, kind, parts),
        Some(Head::Store(kind)) => {
            outside_page(in_page, SyntaxKind::Effect)?;
            store_in(cells, kind, parts)
        }
        Some(Head::Send(kind)) => {
            outside_page(in_page, SyntaxKind::NestedSend)?;
            send_in(cells, kind, parts)
        }
        Some(Head::Last(kind)) => {
            outside_page(in_page, SyntaxKind::NestedSend)?;
            Ok(Row::Last(kind, only_part(parts)?))
        }
        Some(Head::Isolate) => {
            outside_page(in_page, SyntaxKind::NestedSend)?;
            Ok(Row::Isolate(only_part(parts)?))
        }
        Some(Head::Call) => {
            outside_page(in_page, SyntaxKind::NestedSend)?;
            call_in(cells, parts)
        }
        Some(Head::Apply(op)) => apply_in(op, parts),
    }
}

fn outside_page(in_page: bool, kind: SyntaxKind) -> Result<(), SyntaxKind>
    ensures { result ≡ spec.outside_page in_page kind }
{
    if in_page { Err(kind) } else { Ok(()) }
}

fn only_part(parts: &[Value]) -> Result<&Value, SyntaxKind>
    ensures { seen (λ v. meaning v.now) result ≡ spec.only_part (meanings parts.now) }
{
    match parts {
        [part] => Ok(part),
        [] => Err(SyntaxKind::Shape),
        [_part, _other, ..] => Err(SyntaxKind::Shape),
    }
}

fn template_in(parts: &[Value]) -> Result<Row<'_>, SyntaxKind>
    ensures { seen_row result ≡ spec.template_in (meanings parts.now) }
{
    let template = only_part(parts)?;
    if is_template(template) {
        Ok(Row::Template(template))
    } else {
        Err(SyntaxKind::Shape)
    }
}

/// Bindings of names that may be bound, and a body.
fn bound_in<'a>(cells: &CellNames<'_>, parts: &'a [Value]) -> Result<Bound<'a>, SyntaxKind>
    ensures { seen bound_parts result ≡ spec.bound_in cells.now (meanings parts.now) }
{
    match parts {
        [] => Err(SyntaxKind::Shape),
        [bindings, body @ ..] => bound_by(cells, bindings, body),
    }
}

fn bound_by<'a>(
    cells: &CellNames<'_>,
    bindings: &'a Value,
    body: &'a [Value],
) -> Result<Bound<'a>, SyntaxKind>
    ensures { seen bound_parts result ≡ spec.bound_by cells.now (meaning bindings.now) (meanings body.now) }
{
    match bindings {
        Value::List(bindings) => bind(cells, bindings.as_slice(), body),
        _ => Err(SyntaxKind::Shape),
    }
}

fn bind<'a>(
    cells: &CellNames<'_>,
    bindings: &'a [Value],
    body: &'a [Value],
) -> Result<Bound<'a>, SyntaxKind>
    ensures { seen bound_parts result ≡ spec.bind_with cells.now (meanings bindings.now) (meanings body.now) }
{
    if is_empty(body) || !are_bindings(bindings) {
        return Err(SyntaxKind::Shape);
    }
    if bind_taken(cells, bindings) {
        return Err(SyntaxKind::Duplicate);
    }
    Ok(Bound { bindings, body })
}

pub fn is_empty(parts: &[Value]) -> bool
    ensures { result ≡ spec_is_empty (meanings parts.now) }
{
    match parts {
        [] => true,
        [_first, ..] => false,
    }
}

/// Whether each of these has a name and an expression.
fn are_bindings(bindings: &[Value]) -> bool
    ensures { result ≡ spec.are_bindings (meanings bindings.now) }
{
    for binding in bindings {
        if bound_name(binding).is_none() {
            return false;
        }
    }
    true
}

/// Whether one of these binds the name of a form, an operation or a cell.
fn bind_taken(cells: &CellNames<'_>, bindings: &[Value]) -> bool
    ensures { result ≡ spec.bind_taken cells.now (meanings bindings.now) }
{
    for binding in bindings {
        if is_taken_name(cells, bound_name(binding)) {
            return true;
        }
    }
    false
}

fn is_taken_name(cells: &CellNames<'_>, name: Option<&Str>) -> bool
    ensures { result ≡ spec.is_taken_name cells.now (name_seen name.entry) }
{
    match name {
        None => false,
        Some(name) => cells.is_taken(name),
    }
}

fn begin_in(parts: &[Value]) -> Result<Row<'_>, SyntaxKind>
    ensures { seen_row result ≡ spec.begin_in (meanings parts.now) }
{
    if is_empty(parts) {
        Err(SyntaxKind::Shape)
    } else {
        Ok(Row::Begin(parts))
    }
}

fn choice_in(parts: &[Value]) -> Result<Row<'_>, SyntaxKind>
    ensures { seen_row result ≡ spec.choice_in (meanings parts.now) }
{
    match parts {
        [test, chosen, otherwise] => Ok(Row::If(test, chosen, otherwise)),
        [] => Err(SyntaxKind::Shape),
        [_first] => Err(SyntaxKind::Shape),
        [_first, _second] => Err(SyntaxKind::Shape),
        [_first, _second, _third, _other, ..] => Err(SyntaxKind::Shape),
    }
}

fn clauses_in(parts: &[Value]) -> Result<Row<'_>, SyntaxKind>
    ensures { seen_row result ≡ spec.clauses_in (meanings parts.now) }
{
    if !are_clauses(parts) {
        return Err(SyntaxKind::Shape);
    }
    if !ends_in_else(parts) {
        return Err(SyntaxKind::NoElse);
    }
    Ok(Row::Cond(parts))
}

/// A name that may be bound, in front of a body.
fn named<'a>(
    cells: &CellNames<'_>,
    name: Option<&'a Str>,
    body: &[Value],
) -> Result<&'a Str, SyntaxKind>
    ensures { seen (λ x. x.now) result ≡ spec.named cells.now (name_seen name.entry) (meanings body.now) }
{
    match name {
        None => Err(SyntaxKind::Shape),
        Some(name) => {
            if is_empty(body) {
                return Err(SyntaxKind::Shape);
            }
            if cells.is_taken(name) {
                return Err(SyntaxKind::Duplicate);
            }
            Ok(name)
        }
    }
}

fn turns_in<'a>(cells: &CellNames<'_>, parts: &'a [Value]) -> Result<Row<'a>, SyntaxKind>
    ensures { seen_row result ≡ spec.turns_in cells.now (meanings parts.now) }
{
    match parts {
        [] => Err(SyntaxKind::Shape),
        [bindings, body @ ..] => turns_by(cells, bindings, body),
    }
}

fn turns_by<'a>(
    cells: &CellNames<'_>,
    bindings: &'a Value,
    body: &'a [Value],
) -> Result<Row<'a>, SyntaxKind>
    ensures { seen_row result ≡ spec.turns_by cells.now (meaning bindings.now) (meanings body.now) }
{
    let binding = only_in(bindings)?;
    let name = named(cells, bound_name(binding), body)?;
    let count = value_in(binding)?;
    Ok(Row::For(name, count, body))
}

/// The only item of a list.
fn only_in(list: &Value) -> Result<&Value, SyntaxKind>
    ensures { seen (λ v. meaning v.now) result ≡ spec.only_in (meaning list.now) }
{
    match list {
        Value::List(items) => only_part(items.as_slice()),
        _ => Err(SyntaxKind::Shape),
    }
}

/// The expression of a binding.
fn value_in(binding: &Value) -> Result<&Value, SyntaxKind>
    ensures { seen (λ v. meaning v.now) result ≡ spec.value_in (meaning binding.now) }
{
    match binding {
        Value::List(items) => second_of_two(items.as_slice()),
        _ => Err(SyntaxKind::Shape),
    }
}

fn second_of_two(items: &[Value]) -> Result<&Value, SyntaxKind>
    ensures { seen (λ v. meaning v.now) result ≡ spec.second_of_two (meanings items.now) }
{
    match items {
        [_first, second] => Ok(second),
        [] => Err(SyntaxKind::Shape),
        [_first] => Err(SyntaxKind::Shape),
        [_first, _second, _other, ..] => Err(SyntaxKind::Shape),
    }
}

fn ref_in<'a>(
    cells: &CellNames<'_>,
    kind: CellKind,
    parts: &'a [Value],
) -> Result<Row<'a>, SyntaxKind>
    ensures { seen_row result ≡ spec.ref_in cells.now kind (meanings parts.now) }
{
    let name = only_part(parts)?;
    let cell = cell_in(cells, kind, name)?;
    Ok(Row::Ref(kind, cell))
}

/// The number of the cell of a name.
fn cell_in(cells: &CellNames<'_>, kind: CellKind, name: &Value) -> Result<u8, SyntaxKind>
    ensures { result ≡ spec.cell_in cells.now kind (meaning name.now) }
{
    match symbol_in(name) {
        None => Err(SyntaxKind::Shape),
        Some(name) => cells.number(kind, name),
    }
}

fn store_in<'a>(
    cells: &CellNames<'_>,
    kind: Store,
    parts: &'a [Value],
) -> Result<Row<'a>, SyntaxKind>
    ensures { seen_row result ≡ spec.store_in cells.now kind (meanings parts.now) }
{
    match parts {
        [name, value] => store_by(cells, kind, name, value),
        [] => Err(SyntaxKind::Shape),
        [_first] => Err(SyntaxKind::Shape),
        [_first, _second, _other, ..] => Err(SyntaxKind::Shape),
    }
}

fn store_by<'a>(
    cells: &CellNames<'_>,
    kind: Store,
    name: &Value,
    value: &'a Value,
) -> Result<Row<'a>, SyntaxKind>
    ensures { seen_row result ≡ spec.store_by cells.now kind (meaning name.now) (meaning value.now) }
{
    let cell = cell_in(cells, written(kind), name)?;
    Ok(Row::Store(kind, cell, value))
}

/// The kind of cell that is written.
fn written(kind: Store) -> CellKind
    ensures { result ≡ spec_written kind }
{
    match kind {
        Store::Shadow => CellKind::Web,
        Store::Set | Store::Add => CellKind::Instance,
    }
}

/// The page of the only part, a function `(lambda (u) b ..)`.
fn send_in<'a>(
    cells: &CellNames<'_>,
    kind: SendKind,
    parts: &'a [Value],
) -> Result<Row<'a>, SyntaxKind>
    ensures { seen_row result ≡ spec.send_in cells.now kind (meanings parts.now) }
{
    match only_part(parts)? {
        Value::List(items) => function_of(cells, kind, items.as_slice()),
        _ => Err(SyntaxKind::Shape),
    }
}

fn function_of<'a>(
    cells: &CellNames<'_>,
    kind: SendKind,
    items: &'a [Value],
) -> Result<Row<'a>, SyntaxKind>
    ensures { seen_row result ≡ spec.function_of cells.now kind (meanings items.now) }
{
    match items {
        [] => Err(SyntaxKind::Shape),
        [_word] => Err(SyntaxKind::Shape),
        [word, parameters, body @ ..] => function_by(cells, kind, word, parameters, body),
    }
}

fn function_by<'a>(
    cells: &CellNames<'_>,
    kind: SendKind,
    word: &Value,
    parameters: &'a Value,
    body: &'a [Value],
) -> Result<Row<'a>, SyntaxKind>
    ensures { IsFunctionBy result cells.now kind word.now parameters.now body.now }
{
    if !is_word("lambda", word) {
        return Err(SyntaxKind::Shape);
    }
    let parameter = only_in(parameters)?;
    let name = named(cells, symbol_in(parameter), body)?;
    Ok(Row::Send(kind, name, body))
}

#[tactic(auto, using(crate::proofs::Parts::count_of_items))]
fn apply_in(op: Op, parts: &[Value]) -> Result<Row<'_>, SyntaxKind>
    ensures { seen_row result ≡ spec.apply_in op (meanings parts.now) }
{
    if takes(op, parts.len()) {
        Ok(Row::Apply(op, parts))
    } else {
        Err(SyntaxKind::Arity)
    }
}

/// A task of the script over these operands.
fn call_in<'a>(cells: &CellNames<'_>, parts: &'a [Value]) -> Result<Row<'a>, SyntaxKind>
    ensures { seen_row result ≡ spec.call_in cells.now (meanings parts.now) }
{
    match parts {
        [] => Err(SyntaxKind::Shape),
        [name, operands @ ..] => call_by(cells, symbol_in(name), operands),
    }
}

#[tactic(auto, using(crate::proofs::Parts::count_of_items))]
fn call_by<'a>(
    cells: &CellNames<'_>,
    name: Option<&Str>,
    operands: &'a [Value],
) -> Result<Row<'a>, SyntaxKind>
    ensures { seen_row result
        ≡ spec.call_by cells.now (name_seen name.entry) (meanings operands.now) }
{
    match name {
        None => Err(SyntaxKind::Shape),
        Some(name) => Ok(Row::Call(cells.called(name, operands.len())?, operands)),
    }
}
