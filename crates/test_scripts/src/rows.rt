use crate::runs::{Asked, question_of};
use crate::states::{Writing, writing_of};
use crate::twins::{Chain, chain_of};
use crate::{differences, first, kept, read, runs, states, syntax, text, twins, values};
use std::alloc::{AllocError, Global};

// What is asked of the pages that a script shows over answers.
fn told_of_pages(
    alloc: Global,
    word: &str,
    asked: &Asked,
    chain: &Chain,
) -> Result<String, AllocError> {
    let script = &asked.script;
    match word {
        "both" => twins::each_told(alloc, chain),
        "last" => twins::last_told(alloc, chain),
        "bytes" => states::bytes_told(alloc, script, Writing::Bare, chain),
        "cuts" => states::cuts_told(alloc, script, Writing::Bare, chain),
        "changes" => states::changes_told(alloc, script, Writing::Bare, chain),
        "form" => states::bytes_told(alloc, script, writing_of(chain), chain),
        "form-cuts" => states::cuts_told(alloc, script, writing_of(chain), chain),
        "form-changes" => states::changes_told(alloc, script, writing_of(chain), chain),
        "differs" => differences::difference_told(alloc, script, chain),
        "kept" => kept::kept_told(alloc, script, chain),
        _ => String::from_str(alloc, "no such row"),
    }
}

// What is asked of the pages that the script of a question shows.
fn of_question(alloc: Global, word: &str, asked: &Asked) -> Result<String, AllocError> {
    let chain = chain_of(alloc, &asked.script, asked.answers.as_slice(), asked.fuel)?;
    told_of_pages(alloc, word, asked, &chain)
}

// What is asked of the pages that the script of a row shows.
fn of_pages(alloc: Global, word: &str, row: &str) -> Result<String, AllocError> {
    match question_of(alloc, row)? {
        Ok(asked) => of_question(alloc, word, &asked),
        Err(fault) => Ok(fault),
    }
}

// What is asked of a text by the word of a row.
fn told_of_text(alloc: Global, word: &str, asked: &str) -> Result<String, AllocError> {
    match word {
        "alike" => read::alike_told(alloc, asked),
        "expand" => syntax::fault_told(alloc, asked),
        "nodes" => syntax::nodes_of(alloc, asked),
        "defaults" => syntax::defaults_told(alloc, asked),
        "run" | "cost" | "effects" | "names" => runs::run_told(alloc, word, asked),
        "recorded" => runs::recorded(alloc, asked),
        "value" => runs::value_told(alloc, asked),
        "first" => first::first_told(alloc, asked),
        "again" => twins::again_told(alloc, asked),
        "state" => states::read_told(alloc, asked),
        "against" => differences::read_told(alloc, asked),
        "page" => values::page_told(alloc, asked),
        "measure" => values::measures_told(alloc, asked),
        "number" => values::number_told(alloc, asked),
        "path" => values::path_told(alloc, asked),
        "child" => values::child_told(alloc, asked),
        "expired" => values::expired_told(alloc, asked),
        _ => of_pages(alloc, word, asked),
    }
}

// What is asked of bytes by the word of a row.
fn told_of_bytes(alloc: Global, word: &str, bytes: &[u8]) -> Result<String, AllocError> {
    if word == "fault" {
        return read::fault_told(alloc, bytes);
    }
    match str::from_utf8(bytes) {
        Ok(asked) => told_of_text(alloc, word, asked),
        Err(_) => String::from_str(alloc, "no text"),
    }
}

// What is asked by the word of a row, and the rest of its line.
fn answer(alloc: Global, word: &str, row: &str) -> Result<String, AllocError> {
    let bytes = text::unfolded(alloc, row)?;
    told_of_bytes(alloc, word, &bytes)
}

/// A line of rows with its answer; a line of a heading, or of none, as it is.
pub fn answered(alloc: Global, line: &str) -> Result<String, AllocError> {
    match line.split_once(' ') {
        Some((word, row)) if word != "#" => {
            let told = answer(alloc, word, row)?;
            format!(in alloc; "{line} => {told}\n")
        }
        _ => format!(in alloc; "{line}\n"),
    }
}
