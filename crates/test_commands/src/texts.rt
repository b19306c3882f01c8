//! Texts of setups, steps and transcripts.

use std::alloc::Global;
use std::test::Fail;

/// A text of these bytes.
pub fn text_of(alloc: Global, bytes: &[u8]) -> Result<String, Fail> {
    Ok(String::from_str(alloc, str::from_utf8(bytes)?)?)
}

/// A setup of one script, by its name and its text.
pub fn setup_of(alloc: Global, script: (&str, &str)) -> Result<String, Fail> {
    let (name, text) = script;
    let length = text.len();
    Ok(format!(in alloc; "script {name} {length}\n{text}\n")?)
}

/// The input of `play` with this script and these steps.
pub fn input_of(alloc: Global, script: (&str, &str), steps: &str) -> Result<String, Fail> {
    let mut input = setup_of(alloc, script)?;
    input.push_str("steps\n")?;
    input.push_str(steps)?;
    Ok(input)
}

/// A text between others, as often as `count` says.
pub fn repeated(
    alloc: Global,
    before: &str,
    text: &str,
    count: usize,
    after: &str,
) -> Result<String, Fail> {
    let mut all = String::from_str(alloc, before)?;
    for _ in 0..count {
        all.push_str(text)?;
    }
    all.push_str(after)?;
    Ok(all)
}
