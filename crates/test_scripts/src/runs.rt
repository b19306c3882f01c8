use crate::read::data;
use crate::syntax::script_of;
use crate::told::Told;
use crate::twins::engines_agree;
use instance_cells::{Cells, Effect};
use plain_rerun::rerun;
use script_nodes::{Script, SendKind};
use script_value::{Items, Str, TxName, Value};
use segments::{Answer, Now, Reads, RunEnd, RunResult, Tape};
use std::alloc::{AllocError, Global};

/// What a segment of these runs may cost, where a row says nothing of it.
const FUEL: u64 = 100_000;

/// The URL `/NUMBER`.
pub fn url(alloc: Global, number: u64) -> Result<Str, AllocError> {
    Ok(Str::new(format!(in alloc; "/{number}")?))
}

// A segment that ran after an answer, and read this.
fn ran_behind(
    alloc: Global,
    number: u64,
    value: Value,
    reads: Items,
) -> Result<Answer, AllocError> {
    Ok(Answer {
        value,
        number,
        url: url(alloc, number)?,
        reads,
    })
}

/// The tape of these segments and an answer, over these cells.
pub fn tape<'t>(
    past: &'t [Answer],
    answer: &'t Value,
    url: &'t Str,
    cells: &'t Cells,
    fuel: u64,
) -> Tape<'t> {
    Tape {
        past,
        answer,
        newest: Now {
            number: past.len() as u64,
            url,
            reads: Reads::Present { cells, fuel },
        },
    }
}

// What a script comes to after these segments and an answer, over what its instance cells begin with.
fn run_behind(
    alloc: Global,
    script: &Script,
    past: &[Answer],
    answer: &Value,
    fuel: u64,
) -> Result<RunResult, AllocError> {
    let url = url(alloc, past.len() as u64)?;
    let cells = Cells::of(alloc, script.instance_defaults().as_slice())?;
    rerun(alloc, script, &tape(past, answer, &url, &cells, fuel))
}

// What a script comes to over these answers; its segments have the numbers 0, 1 and so on, and those before the last read nothing.
fn run_over(
    alloc: Global,
    script: &Script,
    answers: &[Value],
    fuel: u64,
) -> Result<RunResult, AllocError> {
    let mut past = Vec::new(alloc);
    let mut last = &Value::Truth(false);
    for value in answers {
        let number = past.len() as u64;
        past.push(ran_behind(alloc, number, last.try_clone(alloc)?, Items::new(alloc))?)?;
        last = value;
    }
    run_behind(alloc, script, past.as_slice(), last, fuel)
}

// The fuel that stands first in a row, and the rest of it.
fn fuel_of(row: &str) -> (u64, &str) {
    match row.split_once(' ') {
        Some((first, rest)) => match first.parse() {
            Ok(fuel) => (fuel, rest),
            Err(_) => (FUEL, row),
        },
        None => (FUEL, row),
    }
}

/// What a row asks for: a script over answers, and what each of its segments may cost.
#[derive(Drop)]
pub struct Asked {
    pub script: Script,
    pub answers: Vec<Value>,
    pub fuel: u64,
}

/// What a row asks for, its answers standing after `<-`, or the first fault of the script or of the answers.
pub fn question_of(alloc: Global, row: &str) -> Result<Result<Asked, String>, AllocError> {
    let (fuel, row) = fuel_of(row);
    let (text, answers) = row.split_once(" <- ").unwrap_or((row, ""));
    let script = match script_of(alloc, text)? {
        Ok(script) => script,
        Err(fault) => return Ok(Err(fault)),
    };
    match data(alloc, answers.as_bytes())? {
        Ok(answers) => Ok(Ok(Asked {
            script,
            answers,
            fuel,
        })),
        Err(fault) => Ok(Err(fault)),
    }
}

/// How a run stopped.
pub fn end_told(alloc: Global, end: &RunEnd) -> Result<String, AllocError> {
    let (word, page) = match end {
        RunEnd::Shown { page, kind } => match kind {
            SendKind::Suspend => ("shown", page),
            SendKind::Forward => ("forwarded", page),
        },
        RunEnd::Finished(page) => ("finished", page),
        RunEnd::Ended(page) => ("ended", page),
        RunEnd::Faulted(fault) => return format!(in alloc; "{fault:?}"),
        RunEnd::Fuel(cost) => return format!(in alloc; "fuel {cost}"),
    };
    let page = str::from_utf8(page.as_slice()).unwrap_or("no text");
    format!(in alloc; "{word} {page}")
}

// How a run stopped, and what its last segment costs.
fn with_cost(alloc: Global, run: &RunResult) -> Result<String, AllocError> {
    let mut told = Told::new(alloc);
    told.put(end_told(alloc, &run.end));
    told.add(", ");
    told.number(run.cost);
    told.all()
}

// An effect on a number.
fn effect_told(alloc: Global, effect: &Effect) -> Result<String, AllocError> {
    match effect {
        Effect::Read(cell, Value::Int(n)) => format!(in alloc; ", read {cell} {n}"),
        Effect::Set(cell, Value::Int(n)) => format!(in alloc; ", set {cell} {n}"),
        Effect::Add(cell, n) => format!(in alloc; ", add {cell} {n}"),
        _ => format!(in alloc; ", no number"),
    }
}

// How a run stopped, and the effects of its last segment.
fn with_effects(alloc: Global, run: &RunResult) -> Result<String, AllocError> {
    let mut told = Told::new(alloc);
    told.put(end_told(alloc, &run.end));
    for effect in run.effects.as_slice() {
        told.put(effect_told(alloc, effect));
    }
    told.all()
}

// Names of transactions, after a word.
fn tell_names(alloc: Global, told: &mut Told, word: &str, names: &[TxName]) {
    told.add(word);
    for name in names {
        let ticket = name.ticket;
        let entry = name.entry;
        told.put(format!(in alloc; " {ticket}.{entry}"));
    }
}

// The transactions that are open where a run stopped, and those that its last segment left.
fn transactions_told(alloc: Global, run: &RunResult) -> Result<String, AllocError> {
    let mut told = Told::new(alloc);
    tell_names(alloc, &mut told, "open", run.entered.as_slice());
    tell_names(alloc, &mut told, ", left", run.left.as_slice());
    told.all()
}

// What is asked of a run.
fn told_of_run(alloc: Global, word: &str, run: &RunResult) -> Result<String, AllocError> {
    match word {
        "cost" => with_cost(alloc, run),
        "effects" => with_effects(alloc, run),
        "names" => transactions_told(alloc, run),
        _ => end_told(alloc, &run.end),
    }
}

// What is asked of the run over a question's answers, if both engines come to it.
fn run_asked(alloc: Global, word: &str, asked: &Asked) -> Result<String, AllocError> {
    if !engines_agree(alloc, asked)? {
        return String::from_str(alloc, "the engines differ");
    }
    let run = run_over(alloc, &asked.script, asked.answers.as_slice(), asked.fuel)?;
    told_of_run(alloc, word, &run)
}

/// What is asked of a script's run over the answers of a row: how it stops, and with it its cost or its effects, or its
/// transactions; or the first fault of the script or of the answers. The machine of stored frames comes to the same.
pub fn run_told(alloc: Global, word: &str, row: &str) -> Result<String, AllocError> {
    match question_of(alloc, row)? {
        Ok(asked) => run_asked(alloc, word, &asked),
        Err(fault) => Ok(fault),
    }
}

/// Whether the value of an expression is the datum after `<-`, or how the script stops.
pub fn value_told(alloc: Global, row: &str) -> Result<String, AllocError> {
    let (expression, value) = row.split_once(" <- ").unwrap_or((row, ""));
    let text = format!(in alloc; "(if (equal? {expression} '{value}) \"same\" \"other\")")?;
    run_told(alloc, "run", text.as_str())
}

// A run after these segments.
fn told_behind(alloc: Global, script: &Script, past: &[Answer]) -> Result<String, AllocError> {
    let run = run_behind(alloc, script, past, &Value::Int(0), FUEL)?;
    with_effects(alloc, &run)
}

// Copies of segments that ran.
fn copies_of(alloc: Global, past: &[Answer]) -> Result<Vec<Answer>, AllocError> {
    let mut copies = Vec::new(alloc);
    for answer in past {
        copies.push(answer.try_clone(alloc)?)?;
    }
    Ok(copies)
}

// A copy of a run after copies of these segments.
fn told_of_copies(alloc: Global, script: &Script, past: &[Answer]) -> Result<String, AllocError> {
    let past = copies_of(alloc, past)?;
    let run = run_behind(alloc, script, past.as_slice(), &Value::Int(0), FUEL)?;
    let copy = run.try_clone(alloc)?;
    with_effects(alloc, &copy)
}

// A run whose first segment read these values, and copies of the past and of the run.
fn over_reads(alloc: Global, script: &Script, reads: Vec<Value>) -> Result<String, AllocError> {
    let first = ran_behind(alloc, 0, Value::Truth(false), Items::from_vec(reads))?;
    let past = [first];
    let mut told = Told::new(alloc);
    told.put(told_behind(alloc, script, &past));
    told.add("; ");
    told.put(told_of_copies(alloc, script, &past));
    told.all()
}

// A run whose first segment read the data of a text, and copies of the past and of the run.
fn over_data(alloc: Global, script: &Script, reads: &str) -> Result<String, AllocError> {
    match data(alloc, reads.as_bytes())? {
        Ok(reads) => over_reads(alloc, script, reads),
        Err(fault) => Ok(fault),
    }
}

/// How a script stops after a first segment that read the values after `<-`; the same of copies.
pub fn recorded(alloc: Global, row: &str) -> Result<String, AllocError> {
    let (text, reads) = row.split_once(" <- ").unwrap_or((row, ""));
    match script_of(alloc, text)? {
        Ok(script) => over_data(alloc, &script, reads),
        Err(fault) => Ok(fault),
    }
}
