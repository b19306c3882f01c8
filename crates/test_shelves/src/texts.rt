ghost use Rattle.std.specs.Prelude.{IfOk};
ghost use Rattle.script_nodes.specs.Views.{scripts_of};
ghost use Rattle.setup_reader.specs.Texts.{IsReadSetup};

use page_names::{Target, parse_target};
use script_nodes::{ScriptText, Setup};
use script_value::{Bytes, Value, equal};
use setup_reader::setup_of;
use sexp_reader::read_all;
use std::alloc::Global;
use std::test::Fail;

/// A script that asks for two numbers and tells their sum.
pub const SUM: &str =
    "(let ((a (string->number (extract-binding/single 'n (send/suspend (lambda (u) (list 'a (list (list 'href u)) \"1\")))))) (b (string->number (extract-binding/single 'n (send/suspend (lambda (u) (list 'a (list (list 'href u)) \"2\"))))))) (list 'p (number->string (+ a b))))";

// The data of a text.
fn data(alloc: Global, text: &str) -> Result<Vec<Value>, Fail> {
    Ok(read_all(alloc, text.as_bytes())?)
}

/// The last datum of a text.
pub fn datum(alloc: Global, text: &str) -> Result<Value, Fail> {
    Ok(data(alloc, text)?.pop().ok_or("no datum")?)
}

/// Whether a value is the one datum of a text.
pub fn is_datum(alloc: Global, value: &Value, text: &str) -> Result<bool, Fail> {
    Ok(match data(alloc, text)?.as_slice() {
        [wanted] => equal(value, wanted),
        _ => false,
    })
}

// The names and texts of these scripts, as a journal tells them.
fn told(alloc: Global, scripts: &[(&str, &str)]) -> Result<Vec<ScriptText>, Fail> {
    let mut texts = Vec::new(alloc);
    for (name, text) in scripts {
        texts.push(ScriptText {
            name: Bytes::new(name.as_bytes().to_vec(alloc)?),
            text: Bytes::new(text.as_bytes().to_vec(alloc)?),
        })?;
    }
    Ok(texts)
}

/// The setup of these names and texts of scripts.
pub fn setup(alloc: Global, scripts: &[(&str, &str)]) -> Result<Setup, Fail>
    ensures { IfOk result (λ s. IsReadSetup (scripts_of s)) }
{
    let texts = told(alloc, scripts)?;
    match setup_of(alloc, texts.as_slice())? {
        Some(setup) => Ok(setup),
        None => Err(Fail::from("no setup")),
    }
}

/// The text of some bytes.
pub fn text_of(bytes: &Bytes) -> Result<&str, Fail> {
    Ok(str::from_utf8(bytes.as_slice())?)
}

/// What a path names.
pub fn target(path: &str) -> Result<Target, Fail> {
    Ok(parse_target(path.as_bytes()).ok_or("no target")?)
}
