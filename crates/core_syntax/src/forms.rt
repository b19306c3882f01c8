ghost use Rattle.std.specs.Prelude.{◌≡◌, ◌∷◌, [], Err, IfOk, IsOk, false, map};
ghost use Rattle.script_nodes.specs.Arena.{IsScript};
ghost use Rattle.script_nodes.specs.Core.{cores_of};
ghost use Rattle.script_value.specs.Views.{meaning};
ghost use Rattle.core_syntax.specs.Definitions.{begins_well, expanded, expression_at, first_seen, nothing_defined};
ghost use Rattle.core_syntax.specs.DefinitionsSeen.{cells_of};
ghost use Rattle.core_syntax.specs.Expands.{Expands, ExpandsFault, IsLevel};
ghost use Rattle.core_syntax.specs.ExpandsSeen.{ExpandsLast, LaysOut, arena_in};
ghost use Rattle.core_syntax.specs.Forms.{core_of};
ghost use Rattle.core_syntax.specs.Gives.{Reads};
ghost use Rattle.core_syntax.specs.Headings.{is_definition};
ghost use Rattle.core_syntax.specs.Laid.{LaysScript};
ghost use Rattle.core_syntax.specs.TaskNames.{names_in};

use crate::cell_names::CellNames;
use crate::defined::Defined;
use crate::faults::{ExpandFault, ReadFault, SyntaxError, SyntaxKind};
use crate::layout::{lay, lay_all};
use crate::names::Names;
use crate::nodes::{LayFault, Nodes};
use crate::read::Reader;
use crate::rows::row_of;
use crate::shapes::is_headed;
use crate::tree::Tree;
use script_nodes::{Numbers, Script};
use script_value::Value;
use std::alloc::Global;

/// How deep a script's nodes may nest.
const DEPTH_LIMIT: u32 = 1_024;

/// The script that data are: definitions of cells, and then one expression.
pub fn expand(alloc: Global, forms: &[Value]) -> Result<Script, ExpandFault>
    ensures table { Expands result (expanded (map meaning forms.now)) }
    // What the first form tells before an expression in it is read is told whatever memory there is.
    ensures memory { result ≡ Err ExpandFault.Memory → IsOk (begins_well (map meaning forms.now)) }
{
    if let Err(kind) = begins_well(alloc, forms) {
        return Err(at(0, kind));
    }
    expand_forms(alloc, forms)
}

fn begins_well(alloc: Global, forms: &[Value]) -> Result<(), SyntaxKind>
    ensures { result ≡ begins_well (map meaning forms.now) }
{
    match forms {
        [] => Err(SyntaxKind::Shape),
        [first, others @ ..] => first_seen(alloc, first, others, forms),
    }
}

/// What the first form tells: a cell, a task, or a row where it is the last.
fn first_seen<'a>(
    alloc: Global,
    first: &'a Value,
    others: &'a [Value],
    forms: &'a [Value],
) -> Result<(), SyntaxKind>
    requires { names_in forms.now ≡ names_in (first.now ∷ others.now) }
    ensures { result ≡ first_seen (meaning first.now) (map meaning others.now) }
{
    let nothing = Defined::new(alloc);
    let scope = Names::new(alloc);
    seen_behind(&nothing, &scope, first, others, forms)
}

// What the first form tells where nothing is defined yet and no variable is bound.
fn seen_behind<'a>(
    nothing: &Defined<'a>,
    scope: &Names<'a>,
    first: &'a Value,
    others: &'a [Value],
    forms: &'a [Value],
) -> Result<(), SyntaxKind>
    requires nothing { cells_of nothing.now ≡ nothing_defined }
    requires scope { scope.now ≡ [] }
    requires forms { names_in forms.now ≡ names_in (first.now ∷ others.now) }
    ensures { result ≡ first_seen (meaning first.now) (map meaning others.now) }
{
    if is_definition(first) {
        return nothing.seen(first, others, forms);
    }
    if !others.is_empty() {
        return Err(SyntaxKind::Shape);
    }
    row_of(&nothing.names, scope, false, first)?;
    Ok(())
}

/// Whether a form is a definition.
fn is_definition(form: &Value) -> bool
    ensures { result ≡ is_definition (meaning form.now) }
{
    is_headed("define", form) || is_headed("define-task", form)
}

fn expand_forms(alloc: Global, forms: &[Value]) -> Result<Script, ExpandFault>
    ensures { Expands result (expanded (map meaning forms.now)) }
{
    let mut defined = Defined::new(alloc);
    match define_all(alloc, &mut defined, forms) {
        Ok(last) => expand_expression(alloc, defined, last.number, last.form),
        Err(fault) => Err(fault),
    }
}

/// The expression of a script, and the number of its form.
#[derive(Clone, Copy)]
struct Last<'a> {
    number: u32,
    form: &'a Value,
}

/// Puts what is defined in front of the expression after the rest, and gives the expression.
fn define_all<'a>(
    alloc: Global,
    defined: &mut Defined<'a>,
    forms: &'a [Value],
) -> Result<Last<'a>, ExpandFault>
    requires { cells_of defined.old ≡ nothing_defined }
    ensures level { IfOk result (λ _. IsLevel (cells_of defined.new)) }
    ensures table { ExpandsLast result (cells_of defined.new) (expanded (map meaning forms.now)) }
{
    let mut left = forms;
    while let [form, others @ ..] = left {
        let number = defined.count();
        if !is_definition(form) {
            if !others.is_empty() {
                return Err(at(number, SyntaxKind::Shape));
            }
            return Ok(Last { number, form });
        }
        match defined.define_form(alloc, form, others, left) {
            Ok(()) => {}
            Err(fault) => return Err(at_number(number, fault)),
        }
        left = others;
    }
    Err(at(defined.count(), SyntaxKind::Shape))
}

/// The script of these cells and tasks and of this expression, which is the form of this number.
fn expand_expression<'a>(
    alloc: Global,
    defined: Defined<'a>,
    number: u32,
    form: &'a Value,
) -> Result<Script, ExpandFault>
    requires { IsLevel (cells_of defined) }
    ensures { Expands result (expression_at number (cells_of defined.entry) (meaning form.now) []) }
{
    match lay_out(alloc, &defined, number, form) {
        Ok(laid) => Ok(Script::from_parts(
            laid.nodes.into_vec(),
            defined.web,
            defined.instance,
            laid.starts,
        )),
        Err(fault) => Err(fault),
    }
}

/// The nodes of a script, and the numbers of the first nodes of its tasks' bodies.
#[derive(Drop)]
struct Laid {
    nodes: Nodes,
    starts: Numbers,
}

/// The nodes of the expression that is the form of this number, and of the bodies of these tasks.
fn lay_out<'a>(
    alloc: Global,
    defined: &Defined<'a>,
    number: u32,
    form: &'a Value,
) -> Result<Laid, ExpandFault>
    requires { IsLevel (cells_of defined.now) }
    ensures script { IfOk result (λ laid. IsScript (arena_in laid (cells_of defined.now))) }
    ensures table { LaysOut result (cells_of defined.now) number (meaning form.now) }
{
    let tree = match expression_tree(alloc, &defined.names, form) {
        Ok(tree) => tree,
        Err(fault) => return Err(at_number(number, fault)),
    };
    let mut nodes = Nodes::new(alloc);
    match lay_script(alloc, &mut nodes, &tree, defined.tasks.as_slice()) {
        Ok(starts) => Ok(Laid { nodes, starts }),
        Err(LayFault::Memory) => Err(ExpandFault::Memory),
        Err(LayFault::TooMany) => Err(at(number, SyntaxKind::TooMany)),
    }
}

/// The tree of an expression with these cells and tasks.
fn expression_tree<'a>(
    alloc: Global,
    names: &CellNames<'a>,
    form: &'a Value,
) -> Result<Tree, ReadFault>
    ensures { Reads result (core_of names.now [] false (meaning form.now)) }
{
    let mut reader = Reader::new(alloc, names);
    reader.read(false, form)
}

/// Puts the nodes of an expression and after them those of tasks' bodies, and gives the numbers of the first nodes of
/// these.
#[tactic(auto, using(crate::proofs::Lays::script_stands, crate::proofs::Lays::expression_lacks, crate::proofs::Lays::bodies_lack))]
fn lay_script(
    alloc: Global,
    nodes: &mut Nodes,
    expression: &Tree,
    tasks: &[Tree],
) -> Result<Numbers, LayFault>
    ensures { LaysScript result nodes.old nodes.new expression.now (cores_of tasks.now) }
{
    lay(alloc, nodes, DEPTH_LIMIT, expression)?;
    lay_all(alloc, nodes, DEPTH_LIMIT, tasks)
}

/// A fault of the form of this number.
fn at(number: u32, kind: SyntaxKind) -> ExpandFault
    ensures { result ≡ ExpandFault.At record { kind = kind; form = number } }
{
    ExpandFault::At(SyntaxError { kind, form: number })
}

/// What a fault is in the form of this number.
fn at_number(number: u32, fault: ReadFault) -> ExpandFault
    ensures { ExpandsFault result number fault }
{
    match fault {
        ReadFault::Memory => ExpandFault::Memory,
        ReadFault::Syntax(kind) => at(number, kind),
    }
}
