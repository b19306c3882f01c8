use crate::read::data;
use crate::told::Told;
use core_syntax::{ExpandFault, expand};
use script_nodes::{Node, Script, SendKind};
use script_value::Value;
use std::alloc::{AllocError, Global};

/// The script of a text, or its first fault.
pub fn script_of(alloc: Global, text: &str) -> Result<Result<Script, String>, AllocError> {
    let values = match data(alloc, text.as_bytes())? {
        Ok(values) => values,
        Err(fault) => return Ok(Err(fault)),
    };
    match expand(alloc, values.as_slice()) {
        Ok(script) => Ok(Ok(script)),
        Err(ExpandFault::At(error)) => {
            let kind = error.kind;
            let form = error.form;
            Ok(Err(format!(in alloc; "{kind:?} {form}")?))
        }
        Err(ExpandFault::Memory) => Err(AllocError),
    }
}

/// The first fault of a script, if it has one.
pub fn fault_told(alloc: Global, text: &str) -> Result<String, AllocError> {
    match script_of(alloc, text)? {
        Ok(_) => String::from_str(alloc, "script"),
        Err(fault) => Ok(fault),
    }
}

// What a cell begins with, where that is a number.
fn default_told(alloc: Global, value: &Value) -> Result<String, AllocError> {
    match value {
        Value::Int(number) => format!(in alloc; " {number}"),
        _ => String::from_str(alloc, " other"),
    }
}

// What each cell of a script begins with.
fn tell_defaults(alloc: Global, told: &mut Told, script: &Script) {
    told.add("web");
    for cell in 0..u8::MAX {
        if (cell as usize) < script.web_defaults().as_slice().len() {
            told.put(default_told(alloc, script.web_default(cell)));
        }
    }
    told.add(", instance");
    for cell in 0..u8::MAX {
        if (cell as usize) < script.instance_defaults().as_slice().len() {
            told.put(default_told(alloc, script.instance_default(cell)));
        }
    }
}

/// What the web cells and the instance cells of a script begin with, or its first fault.
pub fn defaults_told(alloc: Global, text: &str) -> Result<String, AllocError> {
    match script_of(alloc, text)? {
        Ok(script) => {
            let mut told = Told::new(alloc);
            tell_defaults(alloc, &mut told, &script);
            told.all()
        }
        Err(fault) => Ok(fault),
    }
}

fn kind_told(kind: SendKind) -> &'static str {
    match kind {
        SendKind::Suspend => "suspend",
        SendKind::Forward => "forward",
    }
}

// A node, its parts by their numbers.
fn tell_node(alloc: Global, told: &mut Told, node: &Node) {
    match node {
        Node::Lit(Value::Int(number)) => told.put(format!(in alloc; "lit {number}")),
        Node::Lit(_) => told.add("lit"),
        Node::Var(place) => told.put(format!(in alloc; "var {place}")),
        Node::Let { bindings, body } => {
            told.line("let", bindings.as_slice());
            told.one(" in", *body);
        }
        Node::Seq { parts } => told.line("seq", parts.as_slice()),
        Node::If {
            test,
            then,
            otherwise,
        } => {
            told.one("if", *test);
            told.two("", *then, *otherwise);
        }
        Node::And { parts } => told.line("and", parts.as_slice()),
        Node::Or { parts } => told.line("or", parts.as_slice()),
        Node::For { count, body } => told.two("for", *count, *body),
        Node::Prim { op, operands } => {
            told.put(format!(in alloc; "{op:?}"));
            told.line("", operands.as_slice());
        }
        Node::Call { task, operands } => {
            told.one("call", *task as u32);
            told.line("", operands.as_slice());
        }
        Node::Send { kind, body } => told.one(kind_told(*kind), *body),
        Node::Finish { body } => told.one("finish", *body),
        Node::Back { body } => told.one("back", *body),
        Node::Isolate { body } => told.one("isolate", *body),
        Node::CellRef { cell } => told.one("web", *cell as u32),
        Node::CellShadow { cell, value } => told.two("shadow", *cell as u32, *value),
        Node::InstRef { cell } => told.one("instance", *cell as u32),
        Node::InstSet { cell, value } => told.two("set", *cell as u32, *value),
        Node::InstAdd { cell, value } => told.two("add", *cell as u32, *value),
    }
}

// The nodes of a script in their order.
fn nodes_told(alloc: Global, script: &Script) -> Result<String, AllocError> {
    let mut told = Told::new(alloc);
    for place in 0..script.count() {
        let Ok(number) = u32::try_from(place) else {
            break;
        };
        tell_node(alloc, &mut told, script.node(number));
        told.add(";");
    }
    told.all()
}

/// The nodes of the script of a text in their order.
pub fn nodes_of(alloc: Global, text: &str) -> Result<String, AllocError> {
    match script_of(alloc, text)? {
        Ok(script) => nodes_told(alloc, &script),
        Err(fault) => Ok(fault),
    }
}
