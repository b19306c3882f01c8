//! Data as trees: one function a row of the table of forms.

ghost use Rattle.std.specs.Prelude.{◌≡◌, [], Ok, Err, IsOk, OnOk};
ghost use Rattle.script_value.specs.Val.{list};
ghost use Rattle.script_value.specs.Views.{meaning, meanings};
ghost use Rattle.script_nodes.specs.Core.{lit};
ghost use Rattle.core_syntax.specs.Forms as spec;
ghost use Rattle.core_syntax.specs.RowCores.{core_in_row, and_core, or_core, prim_core, store_core, send_core, last_core, isolate_core, call_core};
ghost use Rattle.core_syntax.specs.Rows.{row_of as spec_row_of};
ghost use Rattle.core_syntax.specs.RowsSeen.{row_seen};
ghost use Rattle.core_syntax.specs.ReaderSeen.{here};
ghost use Rattle.core_syntax.specs.Gives.{Reads, ReadsAll};

mod bindings;
mod choices;
mod filling;

use crate::cell_names::CellNames;
use crate::faults::{ReadFault, SyntaxKind};
use crate::heads::{LastPage, Store};
use crate::names::Names;
use crate::rows::{Row, row_of};
use crate::tree::{Form, Group, Single, Tree, conjunction, disjunction, over, put, sequence};
use script_nodes::SendKind;
use script_value::{Op, Str, Value};
use std::alloc::Global;

/// Reads expressions with these cells, within the variables in scope.
#[derive(Drop)]
pub struct Reader<'a, 'c> {
    alloc: Global,
    cells: &'c CellNames<'a>,
    scope: Names<'a>,
}

impl<'a, 'c> Reader<'a, 'c> {
    /// A reader with these cells and no variable.
    pub fn new(alloc: Global, cells: &'c CellNames<'a>) -> Reader<'a, 'c>
        ensures cells { result.cells.now ≡ cells.now }
        ensures scope { result.scope ≡ [] }
    {
        Reader {
            alloc,
            cells,
            scope: Names::new(alloc),
        }
    }

    /// The tree of an expression, in a page body or not. What its row tells is told whatever memory there is.
    #[cycle(read)]
    pub fn read(&mut self, in_page: bool, form: &'a Value) -> Result<Tree, ReadFault>
        ensures tree { Reads result (here self.old spec.core_of in_page (meaning form.now)) }
        ensures kept { OnOk result (self.new ≡ self.old) }
        ensures memory { result ≡ Err ReadFault.Memory → IsOk (here self.old spec_row_of in_page (meaning form.now)) }
    {
        let row = row_of(self.cells, &self.scope, in_page, form)?;
        self.read_row(in_page, row)
    }

    #[cycle(read)]
    fn read_row(&mut self, in_page: bool, row: Row<'a>) -> Result<Tree, ReadFault>
        ensures tree { Reads result (here self.old core_in_row in_page (row_seen row.entry)) }
        ensures kept { OnOk result (self.new ≡ self.old) }
    {
        match row {
            Row::Literal(value) => literal(self.alloc, value),
            Row::Variable(place) => Ok(Tree::new(Form::Var(place))),
            Row::Template(template) => self.fill(in_page, template),
            Row::Let(bound) => self.read_let(in_page, bound.bindings, bound.body),
            Row::LetInTurn(bound) => self.read_let_in_turn(in_page, bound.bindings, bound.body),
            Row::Begin(body) => self.read_body(in_page, body),
            Row::If(test, chosen, otherwise) => self.read_if(in_page, test, chosen, otherwise),
            Row::Cond(clauses) => self.read_choices(in_page, clauses),
            Row::And(parts) => self.read_and(in_page, parts),
            Row::Or(parts) => self.read_or(in_page, parts),
            Row::For(name, count, body) => self.read_for(in_page, name, count, body),
            Row::Ref(kind, cell) => Ok(Tree::new(Form::Ref(kind, cell))),
            Row::Store(kind, cell, value) => self.read_store(kind, cell, value),
            Row::Send(kind, name, body) => self.read_send(kind, name, body),
            Row::Last(kind, body) => self.read_last(kind, body),
            Row::Isolate(body) => self.read_isolate(body),
            Row::Call(task, operands) => self.read_call(task, operands),
            Row::Apply(op, parts) => self.read_prim(in_page, op, parts),
        }
    }

    /// Expressions from left to right.
    #[cycle(read)]
    fn read_all(&mut self, in_page: bool, parts: &'a [Value]) -> Result<Vec<Tree>, ReadFault>
        ensures tree { ReadsAll result (here self.old spec.cores_from in_page [] (meanings parts.now)) }
        ensures kept { OnOk result (self.new ≡ self.old) }
    {
        let mut trees = Vec::new(self.alloc);
        for part in parts {
            let tree = self.read(in_page, part)?;
            put(&mut trees, tree)?;
        }
        Ok(trees)
    }

    #[cycle(read)]
    fn read_and(&mut self, in_page: bool, parts: &'a [Value]) -> Result<Tree, ReadFault>
        ensures tree { Reads result (here self.old and_core in_page (meanings parts.now)) }
        ensures kept { OnOk result (self.new ≡ self.old) }
    {
        Ok(conjunction(self.read_all(in_page, parts)?))
    }

    #[cycle(read)]
    fn read_or(&mut self, in_page: bool, parts: &'a [Value]) -> Result<Tree, ReadFault>
        ensures tree { Reads result (here self.old or_core in_page (meanings parts.now)) }
        ensures kept { OnOk result (self.new ≡ self.old) }
    {
        Ok(disjunction(self.read_all(in_page, parts)?))
    }

    /// An operation over its operands.
    #[cycle(read)]
    fn read_prim(&mut self, in_page: bool, op: Op, parts: &'a [Value]) -> Result<Tree, ReadFault>
        ensures tree { Reads result (here self.old prim_core in_page op (meanings parts.now)) }
        ensures kept { OnOk result (self.new ≡ self.old) }
    {
        let parts = self.read_all(in_page, parts)?;
        Ok(Tree::new(Form::Group(Group::Prim(op), parts)))
    }

    /// A body.
    #[cycle(read)]
    fn read_body(&mut self, in_page: bool, body: &'a [Value]) -> Result<Tree, ReadFault>
        ensures tree { Reads result (here self.old spec.body_of in_page (meanings body.now)) }
        ensures kept { OnOk result (self.new ≡ self.old) }
    {
        Ok(sequence(self.read_all(in_page, body)?))
    }

    /// The expression of a list of two, as a binding and an unquote are.
    #[cycle(read)]
    fn read_second(&mut self, in_page: bool, pair: &'a Value) -> Result<Tree, ReadFault>
        ensures tree { Reads result (here self.old spec.bound_value in_page (meaning pair.now)) }
        ensures kept { OnOk result (self.new ≡ self.old) }
    {
        match pair {
            Value::List(items) => self.read_second_of_two(in_page, items.as_slice()),
            _ => Err(ReadFault::Syntax(SyntaxKind::Shape)),
        }
    }

    #[cycle(read)]
    fn read_second_of_two(&mut self, in_page: bool, items: &'a [Value]) -> Result<Tree, ReadFault>
        ensures tree { Reads result (here self.old spec.bound_value in_page (list (meanings items.now))) }
        ensures kept { OnOk result (self.new ≡ self.old) }
    {
        match items {
            [_head, second] => self.read(in_page, second),
            [] => Err(ReadFault::Syntax(SyntaxKind::Shape)),
            [_first] => Err(ReadFault::Syntax(SyntaxKind::Shape)),
            [_first, _second, _other, ..] => Err(ReadFault::Syntax(SyntaxKind::Shape)),
        }
    }

    #[cycle(read)]
    fn read_store(&mut self, kind: Store, cell: u8, value: &'a Value) -> Result<Tree, ReadFault>
        ensures tree { Reads result (here self.old store_core kind cell (meaning value.now)) }
        ensures kept { OnOk result (self.new ≡ self.old) }
    {
        let value = self.read(false, value)?;
        over(self.alloc, Single::Store(kind, cell), value)
    }

    #[cycle(read)]
    fn read_send(
        &mut self,
        kind: SendKind,
        name: &'a Str,
        body: &'a [Value],
    ) -> Result<Tree, ReadFault>
        ensures tree { Reads result (here self.old send_core kind name.now (meanings body.now)) }
        ensures kept { OnOk result (self.new ≡ self.old) }
    {
        let body = self.read_within_one(true, name, body)?;
        over(self.alloc, Single::Send(kind), body)
    }

    #[cycle(read)]
    fn read_last(&mut self, kind: LastPage, body: &'a Value) -> Result<Tree, ReadFault>
        ensures tree { Reads result (here self.old last_core kind (meaning body.now)) }
        ensures kept { OnOk result (self.new ≡ self.old) }
    {
        let body = self.read(true, body)?;
        over(self.alloc, Single::Last(kind), body)
    }

    #[cycle(read)]
    fn read_isolate(&mut self, body: &'a Value) -> Result<Tree, ReadFault>
        ensures tree { Reads result (here self.old isolate_core (meaning body.now)) }
        ensures kept { OnOk result (self.new ≡ self.old) }
    {
        let body = self.read(false, body)?;
        over(self.alloc, Single::Isolate, body)
    }

    #[cycle(read)]
    fn read_call(&mut self, task: u8, operands: &'a [Value]) -> Result<Tree, ReadFault>
        ensures tree { Reads result (here self.old call_core task (meanings operands.now)) }
        ensures kept { OnOk result (self.new ≡ self.old) }
    {
        Ok(Tree::new(Form::Group(Group::Call(task), self.read_all(false, operands)?)))
    }
}

fn literal(alloc: Global, value: &Value) -> Result<Tree, ReadFault>
    ensures { Reads result (Ok (lit (meaning value.now))) }
{
    Ok(Tree::new(Form::Lit(value.try_clone(alloc)?)))
}
