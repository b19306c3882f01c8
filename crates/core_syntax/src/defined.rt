//! The cells and tasks of a script.

ghost use Rattle.std.specs.Prelude.{◌≡◌, ◌∷◌, false, ◌<◌, ◌+◌, Some, Err, OnOk, option_map};
ghost use Rattle.script_value.specs.Views.{meaning, meanings};
ghost use Rattle.core_syntax.specs.Definitions.{definable, defined, nothing_defined, parameters_taken, with_value};
ghost use Rattle.core_syntax.specs.Expands.{IsOpen};
ghost use Rattle.core_syntax.specs.Forms.{body_of};
ghost use Rattle.core_syntax.specs.Gives.{Reads};
ghost use Rattle.core_syntax.specs.Headings.{definition_of};
ghost use Rattle.core_syntax.specs.Rows.{is_taken_name};
ghost use Rattle.core_syntax.specs.TaskNames.{names_in, with_forms};

use crate::cell_names::CellNames;
use crate::definitions::{Definition, definition_of};
use crate::faults::{ReadFault, SyntaxKind};
use crate::heads::CellKind;
use crate::names::Names;
use crate::read::Reader;
use crate::shapes::{is_headed, symbol_in};
use crate::task_forms::{TaskForm, parameter_names, task_of};
use crate::tree::Tree;
use script_value::{Items, Str, Value};
use std::alloc::{AllocError, Global};

/// The most cells of a script.
const CELL_LIMIT: usize = 64;

/// The most tasks of a script.
const TASK_LIMIT: usize = 16;

/// The most parameters of a task.
const PARAMETER_LIMIT: usize = 16;

/// What is defined so far: the names of cells and tasks, what the cells of each kind begin with, and the bodies of the
/// tasks.
#[derive(Drop)]
pub struct Defined<'a> {
    pub names: CellNames<'a>,
    pub web: Items,
    pub instance: Items,
    pub tasks: Vec<Tree>,
}

impl<'a> Defined<'a> {
    ghost use Rattle.core_syntax.specs.DefinitionsSeen.{ChecksTask, Defines, DefinesForm, DefinesTask, DefinesWithin, LacksMemoryAlone, cells_of, count_of, definition, tells};
    ghost use Rattle.core_syntax.specs.RowsSeen.{seen};

    /// No cells and no tasks.
    pub fn new(alloc: Global) -> Defined<'a>
        ensures { cells_of result ≡ nothing_defined }
    {
        Defined {
            names: CellNames::new(alloc),
            web: Items::new(alloc),
            instance: Items::new(alloc),
            tasks: Vec::new(alloc),
        }
    }

    /// How many cells and tasks there are.
    pub fn count(&self) -> u32
        ensures { result ≡ count_of self.now }
    {
        (self.names.len() + self.names.count_of_tasks()) as u32
    }

    /// What the definition tells that stands first.
    pub fn seen(
        &self,
        first: &'a Value,
        others: &'a [Value],
        all: &'a [Value],
    ) -> Result<(), SyntaxKind>
        requires { names_in all.now ≡ names_in (first.now ∷ others.now) }
        ensures { result ≡ tells first.now others.now self.now }
    {
        if is_headed("define", first) {
            self.checked(first)?;
            return Ok(());
        }
        self.checked_task(first, all)?;
        Ok(())
    }

    /// The cell that a form defines, where it may stand after the others.
    pub fn checked(&self, form: &'a Value) -> Result<Definition<'a>, SyntaxKind>
        ensures { seen definition result ≡ definable (definition_of (meaning form.now)) (cells_of self.now) }
    {
        match definition_of(form) {
            None => Err(SyntaxKind::Shape),
            Some(cell) => self.admitted(cell),
        }
    }

    fn admitted(&self, cell: Definition<'a>) -> Result<Definition<'a>, SyntaxKind>
        ensures { seen definition result ≡ definable (Some (definition cell.entry)) (cells_of self.now) }
    {
        if self.names.is_taken(cell.name) {
            return Err(SyntaxKind::Duplicate);
        }
        if self.names.len() >= CELL_LIMIT {
            return Err(SyntaxKind::TooMany);
        }
        Ok(cell)
    }

    /// The task that a form defines, where its names are free; these forms define names too.
    pub fn checked_task(&self, form: &'a Value, later: &[Value]) -> Result<TaskForm<'a>, SyntaxKind>
        ensures { ChecksTask result form.now later.now self.now }
    {
        match task_of(form) {
            None => Err(SyntaxKind::Shape),
            Some(task) => {
                if self.names.is_taken(task.name)
                    || are_taken(&self.names, later, task.parameters)
                {
                    return Err(SyntaxKind::Duplicate);
                }
                Ok(task)
            }
        }
    }

    /// Puts the cell that a form defines after the others. Why there is none is told whatever memory there is.
    pub fn define(&mut self, alloc: Global, form: &'a Value) -> Result<(), ReadFault>
        ensures cells { Defines self.new result (defined (definition_of (meaning form.now)) (cells_of self.old)) }
        ensures memory { LacksMemoryAlone self.old result form.now }
    {
        let cell = self.checked(form)?;
        self.names.push(cell.kind, cell.name)?;
        let value = cell.value.try_clone(alloc)?;
        self.put(cell.kind, value)?;
        Ok(())
    }

    /// Puts what one more cell begins with after those of its kind.
    fn put(&mut self, kind: CellKind, value: Value) -> Result<(), AllocError>
        ensures { OnOk result (cells_of self.new ≡ with_value kind (meaning value) (cells_of self.old)) }
    {
        match kind {
            CellKind::Web => self.web.push(value)?,
            CellKind::Instance => self.instance.push(value)?,
        }
        Ok(())
    }

    /// Puts the task that a form defines after the others; these forms define names too.
    pub fn define_task(
        &mut self,
        alloc: Global,
        form: &'a Value,
        later: &'a [Value],
    ) -> Result<(), ReadFault>
        requires { IsOpen (cells_of self.old) }
        ensures { DefinesTask self.old self.new result form.now later.now }
    {
        let task = self.checked_task(form, later)?;
        let parameters = parameter_names(alloc, task.parameters)?;
        self.define_within(alloc, later, &parameters, task)
    }

    fn define_within(
        &mut self,
        alloc: Global,
        later: &'a [Value],
        parameters: &Names<'a>,
        task: TaskForm<'a>,
    ) -> Result<(), ReadFault>
        requires { IsOpen (cells_of self.old) }
        ensures { DefinesWithin self.old self.new result later.now parameters.now task.entry }
    {
        if parameters.repeat() {
            return Err(ReadFault::Syntax(SyntaxKind::Duplicate));
        }
        if self.names.count_of_tasks() >= TASK_LIMIT || parameters.len() > PARAMETER_LIMIT {
            return Err(ReadFault::Syntax(SyntaxKind::TooMany));
        }
        self.names.look_ahead(later);
        let body = read_task(alloc, &self.names, parameters, task.body)?;
        self.names.look_ahead(&[]);
        self.tasks.push(body)?;
        self.names.push_task(task.name, parameters.len())?;
        Ok(())
    }

    /// Puts what a definition defines after the rest.
    pub fn define_form(
        &mut self,
        alloc: Global,
        form: &'a Value,
        others: &'a [Value],
        later: &'a [Value],
    ) -> Result<(), ReadFault>
        requires open { IsOpen (cells_of self.old) }
        requires later { names_in later.now ≡ names_in (form.now ∷ others.now) }
        ensures { DefinesForm self.old self.new result form.now others.now }
    {
        if is_headed("define", form) {
            self.define(alloc, form)
        } else {
            self.define_task(alloc, form, later)
        }
    }
}

// Whether one of these parameters has a name that is taken.
fn are_taken(names: &CellNames<'_>, later: &[Value], parameters: &[Value]) -> bool
    ensures { result ≡ parameters_taken (with_forms later.now names.now) (meanings parameters.now) }
{
    for parameter in parameters {
        if is_taken_ahead(names, later, symbol_in(parameter)) {
            return true;
        }
    }
    false
}

fn is_taken_ahead(names: &CellNames<'_>, later: &[Value], name: Option<&Str>) -> bool
    ensures { result ≡ is_taken_name (with_forms later.now names.now)
        (option_map (λ x. x.now) name.entry) }
{
    match name {
        None => false,
        Some(name) => names.is_taken_ahead(later, name),
    }
}

// The body of a task with these names, within its parameters alone.
fn read_task<'a>(
    alloc: Global,
    names: &CellNames<'a>,
    parameters: &Names<'a>,
    body: &'a [Value],
) -> Result<Tree, ReadFault>
    ensures { Reads result (body_of names.now parameters.now false (meanings body.now)) }
{
    let mut reader = Reader::new(alloc, names);
    reader.read_within(false, parameters, body)
}
