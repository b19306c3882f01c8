ghost use Rattle.std.specs.Prelude.{◌≡◌, ◌<◌, ◌^◌};

use core_syntax::expand;
use instance_cells::Cells;
use script_nodes::Script;
use script_value::{Str, TxName, Value};
use send_suspend::{Origin, Outcome, Segment, Steps, run_segment};
use sexp_reader::read_all;
use std::alloc::{AllocError, Global};
use std::marker::Brand;
use std::sync::ledger::{Blank, Ledger};
use std::test::Fail;
use transactions::inside;

// A page within so many bindings, each in the body of the one before.
fn nested(alloc: Global, depth: u32) -> Result<String, AllocError> {
    let mut text = String::from_str(alloc, "(let* (")?;
    for _ in 0..depth {
        text.push_str("(x 1)")?;
    }
    text.push_str(") '(p \"deep\"))")?;
    Ok(text)
}

// The tasks that call one another: each but the first calls the one before it.
const FIRST_TASK: &str = "a";

const LATER_TASKS: [&str; 15] = [
    "b", "c", "d", "e", "f", "g", "h", "i", "j", "k", "l", "m", "n", "o", "p",
];

// A text, so many times.
fn push_often(text: &mut String, part: &str, count: u32) -> Result<(), AllocError> {
    for _ in 0..count {
        text.push_str(part)?;
    }
    Ok(())
}

fn push_all(text: &mut String, parts: &[&str]) -> Result<(), AllocError> {
    for part in parts {
        text.push_str(part)?;
    }
    Ok(())
}

// An expression inside so many empty `let`, inside so many bindings.
fn push_tree(
    text: &mut String,
    bindings: u32,
    lets: u32,
    innermost: &[&str],
) -> Result<(), AllocError> {
    text.push_str("(let* (")?;
    push_often(text, "(x 1)", bindings)?;
    text.push_str(")")?;
    push_often(text, "(let () ", lets)?;
    push_all(text, innermost)?;
    push_often(text, ")", lets)?;
    text.push_str(")")
}

fn push_task(
    text: &mut String,
    task: &str,
    bindings: u32,
    innermost: &[&str],
) -> Result<(), AllocError> {
    push_all(text, &["(define-task (", task, ")"])?;
    push_tree(text, bindings, 125, innermost)?;
    text.push_str(")")
}

// A script whose calls go as deep as any. A level is an empty `let`, of one node, as long as the text may nest so deep, and else a
// binding, of two; with the bindings the script has all 16,384 nodes that it may have, and 9,264 of them stand open at once.
fn deepest(alloc: Global) -> Result<String, AllocError> {
    let mut text = String::new(alloc);
    push_task(&mut text, FIRST_TASK, 418, &["(string-append \"x\")"])?;
    let mut before = FIRST_TASK;
    for task in LATER_TASKS {
        push_task(&mut text, task, 419, &["(call ", before, ")"])?;
        before = task;
    }
    push_tree(&mut text, 417, 126, &["(call ", before, ")"])?;
    Ok(text)
}

fn counted<L: Ledger>(
    alloc: Global,
    blank: Blank,
    script: &Script,
    fuel: u64,
) -> Result<Segment, AllocError>
    requires name { blank.name ≡ L.name }
    requires parts { blank.parts ≡ L.parts }
    requires one { blank.parts ≡ 1 }
    requires fuel { fuel < 2 ^ 63 }
{
    let (book, share) = blank.open::<L>();
    let mut steps = Steps::from_ledger(book, share);
    let cells = Cells::of(alloc, script.instance_defaults().as_slice())?;
    let url = Str::new(String::from_str(alloc, "/0")?);
    let nothing = Value::Truth(false);
    run_segment(
        alloc,
        script,
        Origin::Start,
        &nothing,
        &cells,
        0,
        &url,
        fuel,
        &mut steps,
    )
}

// What a script comes to from its start.
fn started(alloc: Global, script: &Script, fuel: u64) -> Result<Segment, AllocError>
    requires { fuel < 2 ^ 63 }
{
    counted::<Brand>(alloc, Blank::new(1), script, fuel)
}

// Whether a script ends with a page.
fn ends(alloc: Global, text: &str, fuel: u32) -> Result<bool, Fail> {
    let script = expand(alloc, read_all(alloc, text.as_bytes())?.as_slice())?;
    let run = started(alloc, &script, fuel as u64)?;
    Ok(match &run.outcome {
        Outcome::Ended(_) => true,
        _ => false,
    })
}

// The transactions that a script's first page is inside.
fn names_inside(alloc: Global, text: &str) -> Result<Vec<TxName>, Fail> {
    let script = expand(alloc, read_all(alloc, text.as_bytes())?.as_slice())?;
    let run = started(alloc, &script, 1_000)?;
    match &run.outcome {
        Outcome::Shown { state, .. } => Ok(inside(alloc, state)?),
        _ => Err(Fail::from("no page that waits")),
    }
}

#[test]
fn a_page_is_inside_the_transactions_that_are_open_around_it(rt: HostRuntime) -> Result<(), Fail> {
    let text =
        "(isolate (begin (isolate 1) (isolate (send/suspend (lambda (k-url) '(p \"in\"))))))";
    let outer = TxName {
        ticket: 0,
        entry: 0,
    };
    let inner = TxName {
        ticket: 0,
        entry: 2,
    };
    let names = names_inside(rt.alloc(), text)?;
    assert_eq!(rt; names.as_slice(), [outer, inner].as_slice());
    Ok(())
}

#[test]
fn a_script_that_nests_1024_deep_ends(rt: HostRuntime) -> Result<(), Fail> {
    let alloc = rt.alloc();
    let text = nested(alloc, 1_023)?;
    if ends(alloc, text.as_str(), 100_000)? {
        Ok(())
    } else {
        Err(Fail::from("no page"))
    }
}

#[test]
fn a_million_turns_end(rt: HostRuntime) -> Result<(), Fail> {
    let text = "(begin (for/list ((i 1000000)) i) '(p \"done\"))";
    if ends(rt.alloc(), text, 100_000_000)? {
        Ok(())
    } else {
        Err(Fail::from("no page"))
    }
}

#[test]
fn a_chain_of_calls_of_9264_levels_ends(rt: HostRuntime) -> Result<(), Fail> {
    let alloc = rt.alloc();
    let text = deepest(alloc)?;
    if ends(alloc, text.as_str(), 100_000)? {
        Ok(())
    } else {
        Err(Fail::from("no page"))
    }
}
