ghost use Rattle.std.specs.Prelude.{◌≡◌, ◌<◌, ◌≤◌, ◌+◌, [], map, length, position, slice_get, unwrap_or, OnOk};
ghost use Rattle.std.specs.Str.{bytes_eq};
ghost use Rattle.script_value.specs.Views.{meaning};
ghost use Rattle.core_syntax.specs.Headings.{has_defined, is_name, name_defined};
ghost use Rattle.core_syntax.specs.Limits.{most_cells, most_tasks};
ghost use Rattle.core_syntax.specs.Names.{called, cell_number, is_among, is_taken, place_in, with_name, with_task_name};
ghost use Rattle.core_syntax.specs.TaskNames.{names_in, task_name, with_forms};

use crate::faults::SyntaxKind;
use crate::heads::{CellKind, head_of};
use crate::task_forms::name_defined;
use script_value::{Str, Value};
use std::alloc::{AllocError, Global};
use std::marker::Model;

/// A task, and how many parameters it has.
#[derive(Clone, Copy)]
pub struct TaskName<'a> {
    pub name: &'a Str,
    pub parameters: usize,
}

/// The names of a script's cells and tasks, each kind in the order of definition; and the forms from the task on whose
/// body is read.
#[derive(Drop)]
pub struct CellNames<'a> {
    web: Vec<&'a Str>,
    instance: Vec<&'a Str>,
    tasks: Vec<TaskName<'a>>,
    later: &'a [Value],
}

impl<'a> Model for CellNames<'a> {
    ghost use Rattle.std.specs.Prelude.{◌+◌, ◌≤◌, length, map};
    ghost use Rattle.core_syntax.specs.Limits.{most_cells, most_tasks};
    ghost use Rattle.core_syntax.specs.Names.{CellNames as NamesOfCells, cell_names_code};
    ghost use Rattle.core_syntax.specs.TaskNames.{names_in, task_name};

    ghost Value = { NamesOfCells };

    ghost coded = { cell_names_code };

    ghost invariant = { λ s. (length s.web.items + length s.instance.items ≤ most_cells) × (length s.tasks.items ≤ most_tasks) };

    ghost view = { λ s. record { web = map (λ n. n.now) s.web.items; instance = map (λ n. n.now) s.instance.items; tasks = map task_name s.tasks.items; later = names_in s.later.now } };
}

impl<'a> CellNames<'a> {
    /// No names.
    pub fn new(alloc: Global) -> CellNames<'a>
        ensures { result ≡ record { web = []; instance = []; tasks = []; later = [] } }
    {
        CellNames {
            web: Vec::new(alloc),
            instance: Vec::new(alloc),
            tasks: Vec::new(alloc),
            later: &[],
        }
    }

    /// The number of the cell of a name among those of its kind.
    pub fn number(&self, kind: CellKind, name: &Str) -> Result<u8, SyntaxKind>
        ensures { result ≡ cell_number kind self.now name.now }
    {
        let place = match kind {
            CellKind::Web => place_among(&self.web, name),
            CellKind::Instance => place_among(&self.instance, name),
        };
        match place {
            None => Err(SyntaxKind::Unbound),
            Some(place) => Ok(place as u8),
        }
    }

    /// The number of the task of a name that is called with so many operands.
    pub fn called(&self, name: &Str, given: usize) -> Result<u8, SyntaxKind>
        ensures { result ≡ called self.now name.now given }
    {
        match task_place(&self.tasks, name) {
            None => Err(SyntaxKind::Unbound),
            Some(place) => {
                if given == parameters_at(&self.tasks, place) {
                    Ok(place as u8)
                } else {
                    Err(SyntaxKind::Arity)
                }
            }
        }
    }

    /// Whether a name is that of a form, an operation, a cell or a task.
    pub fn is_taken(&self, name: &Str) -> bool
        ensures { result ≡ is_taken self.now name.now }
    {
        self.is_taken_ahead(self.later, name)
    }

    /// Whether a name is that of a form, an operation, a cell or a task, or one that these forms define.
    pub fn is_taken_ahead(&self, later: &[Value], name: &Str) -> bool
        ensures { result ≡ is_taken (with_forms later.now self.now) name.now }
    {
        head_of(name.as_str()).is_some()
            || place_among(&self.web, name).is_some()
            || place_among(&self.instance, name).is_some()
            || task_place(&self.tasks, name).is_some()
            || is_defined(later, name)
    }

    /// How many cells there are.
    pub fn len(&self) -> usize
        ensures count { result ≡ length self.now.web + length self.now.instance }
        ensures most { result ≤ most_cells }
    {
        self.web.len() + self.instance.len()
    }

    /// How many tasks there are.
    pub fn count_of_tasks(&self) -> usize
        ensures count { result ≡ length self.now.tasks }
        ensures most { result ≤ most_tasks }
    {
        self.tasks.len()
    }

    /// Puts one more name after those of its kind.
    pub fn push(&mut self, kind: CellKind, name: &'a Str) -> Result<(), AllocError>
        requires { length self.old.web + length self.old.instance < most_cells }
        ensures { OnOk result (self.new ≡ with_name kind name.now self.old) }
    {
        match kind {
            CellKind::Web => self.web.push(name)?,
            CellKind::Instance => self.instance.push(name)?,
        }
        Ok(())
    }

    /// Puts one more task after the others.
    pub fn push_task(&mut self, name: &'a Str, parameters: usize) -> Result<(), AllocError>
        requires { length self.old.tasks < most_tasks }
        ensures { OnOk result (self.new ≡ with_task_name name.now parameters self.old) }
    {
        self.tasks.push(TaskName { name, parameters })?;
        Ok(())
    }

    /// Takes the names that these forms define too.
    pub fn look_ahead(&mut self, forms: &'a [Value])
        ensures { self.new ≡ with_forms forms.now self.old }
    {
        self.later = forms;
    }
}

// The place of a name.
fn place_among(names: &[&Str], name: &Str) -> Option<usize>
    ensures { result ≡ place_in (map (λ n. n.now) names.now) name.now }
{
    first_place(names, name)
}

fn first_place(names: &[&Str], name: &Str) -> Option<usize>
    ensures { result ≡ position (λ n. bytes_eq name.now n.now) names.now }
{
    names.iter().position(|other| is_same(name, other))
}

fn is_same(name: &Str, other: &Str) -> bool
    ensures { result ≡ bytes_eq name.now other.now }
{
    name.as_str() == other.as_str()
}

// The place of the task of a name.
fn task_place(tasks: &[TaskName<'_>], name: &Str) -> Option<usize>
    ensures { result ≡ place_in (map (λ t. t.name) (map task_name tasks.now)) name.now }
{
    first_task(tasks, name)
}

fn first_task(tasks: &[TaskName<'_>], name: &Str) -> Option<usize>
    ensures { result ≡ position (λ t. bytes_eq name.now t.name.now) tasks.now }
{
    tasks.iter().position(|task| is_same(name, task.name))
}

// How many parameters the task of a place has.
#[tactic(auto, using(crate::proofs::Ahead::task_at, crate::proofs::Ahead::no_task_at))]
fn parameters_at(tasks: &[TaskName<'_>], place: usize) -> usize
    ensures { result ≡ unwrap_or (slice_get (map (λ t. t.parameters) (map task_name tasks.now)) place) 0 }
{
    match tasks.get(place) {
        None => 0,
        Some(task) => task.parameters,
    }
}

// Whether one of these forms defines a name.
#[tactic(auto, using(crate::proofs::Ahead::defined_is))]
fn is_defined(forms: &[Value], name: &Str) -> bool
    ensures { result ≡ is_among name.now (names_in forms.now) }
{
    has_defined(forms, name)
}

fn has_defined(forms: &[Value], name: &Str) -> bool
    ensures { result ≡ has_defined name.now (map meaning forms.now) }
{
    for form in forms {
        if defines(form, name) {
            return true;
        }
    }
    false
}

fn defines(form: &Value, name: &Str) -> bool
    ensures { result ≡ is_name name.now (name_defined (meaning form.now)) }
{
    match name_defined(form) {
        None => false,
        Some(other) => is_same(name, other),
    }
}
