use http_forms::{Request, RequestFault};
use page_names::{Target, write_url};
use script_value::Value;
use std::alloc::Global;
use std::test::Fail;

// A binding as `name=text`.
fn binding_text(alloc: Global, binding: &Value) -> Result<String, Fail> {
    let Value::List(pair) = binding else {
        return Err(Fail::from("no binding"));
    };
    match pair.as_slice() {
        [Value::Symbol(name), Value::Text(text)] => {
            let (name, text) = (name.as_str(), text.as_str());
            Ok(format!(in alloc; " {name}={text}")?)
        }
        _ => Err(Fail::from("no pair")),
    }
}

// What a path names, as it is spelled, or `nothing`.
fn target_text(alloc: Global, target: &Option<Target>) -> Result<String, Fail> {
    match target {
        None => Ok(String::from_str(alloc, "nothing")?),
        Some(Target::Start(name)) => Ok(String::from_str(alloc, name.as_str())?),
        Some(Target::Page(name, numbers)) => {
            Ok(String::from_utf8(write_url(alloc, name, *numbers)?.into_vec())?)
        }
    }
}

/// What a request asks for: its target and its bindings.
pub fn request_text(alloc: Global, request: &Request) -> Result<String, Fail> {
    let mut text = target_text(alloc, &request.target)?;
    let Value::List(bindings) = &request.answer else {
        return Err(Fail::from("no bindings"));
    };
    for binding in bindings.as_slice() {
        let binding = binding_text(alloc, binding)?;
        text.push_str(binding.as_str())?;
    }
    Ok(text)
}

/// What bytes come to: `unfinished`, a request, or a status and a word.
pub fn outcome_text(
    alloc: Global,
    outcome: Result<Option<Request>, RequestFault>,
) -> Result<String, Fail> {
    match outcome {
        Ok(None) => Ok(String::from_str(alloc, "unfinished")?),
        Ok(Some(request)) => request_text(alloc, &request),
        Err(RequestFault::Refused(refused)) => {
            let (status, word) = (refused.status().text(), refused.word());
            Ok(format!(in alloc; "{status}, {word}")?)
        }
        Err(RequestFault::Memory) => Err(Fail::from("memory")),
    }
}
