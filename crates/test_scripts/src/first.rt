use crate::syntax::script_of;
use crate::told::Told;
use crate::twins::{Twins, first_of};
use machine_states::{Frame, Outcome, Suspended};
use script_nodes::Script;
use script_value::{Items, Str, Value};
use std::alloc::{AllocError, Global};

// The values that are done, as far as they are texts or symbols.
fn tell_done(told: &mut Told, done: &Items) {
    for value in done.as_slice() {
        told.add(" ");
        told.add(match value {
            Value::Text(text) => text.as_str(),
            Value::Symbol(name) => name.as_str(),
            _ => "?",
        });
    }
}

// A frame with its node, if it is one of a binding or of an operand, and what is done there.
fn tell_frame(alloc: Global, told: &mut Told, frame: &Frame) {
    let (word, node, done) = match frame {
        Frame::Binding { node, done } => ("binding", node, done),
        Frame::Operand { node, done } => ("operand", node, done),
        _ => return told.add("another frame"),
    };
    let place = done.len();
    told.put(format!(in alloc; "{word} {place} of node {node} behind"));
    tell_done(told, done);
}

// What is kept: how many variables and bindings of web cells, and the frames, the outermost first.
fn tell_kept(alloc: Global, told: &mut Told, state: &Suspended) {
    let variables = state.env.len();
    let bindings = state.shades.as_slice().len();
    told.put(format!(in alloc; "{variables} variables, {bindings} bindings"));
    for frame in &state.frames {
        told.add("; ");
        tell_frame(alloc, told, frame);
    }
}

// How the first segment stops, what it costs, and what is kept at its page.
fn page_told(alloc: Global, twins: &Twins, state: &Suspended) -> Result<String, AllocError> {
    let cost = twins.machine.cost;
    let steps = twins.most_steps();
    let mut told = Told::new(alloc);
    told.put(twins.told(alloc));
    told.put(format!(in alloc; ", at cost {cost} and in at most {steps} steps; "));
    tell_kept(alloc, &mut told, state);
    told.all()
}

// What the first segment of a script comes to, whose first page has this URL.
fn told_of_first(alloc: Global, script: &Script, url: &Str) -> Result<String, AllocError> {
    let twins = first_of(alloc, script, url)?;
    match &twins.machine.outcome {
        Outcome::Shown { state, .. } => page_told(alloc, &twins, state),
        _ => String::from_str(alloc, "no page"),
    }
}

/// What is kept of a script at its first page, which has this URL, and what the page costs. Both engines come to it, and the
/// machine is within its bound.
pub fn first_told(alloc: Global, row: &str) -> Result<String, AllocError> {
    let (url, text) = row.split_once(' ').unwrap_or((row, ""));
    let url = Str::new(String::from_str(alloc, url)?);
    match script_of(alloc, text)? {
        Ok(script) => told_of_first(alloc, &script, &url),
        Err(fault) => Ok(fault),
    }
}
