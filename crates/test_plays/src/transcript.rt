use crate::told::Told;
use std::alloc::{AllocError, Global};

// The number after ` 200 ` in a line, that of the bytes of the page after it.
fn page_length(line: &str) -> Option<usize> {
    let (_, length) = line.split_once(" 200 ")?;
    length.parse().ok()
}

// How many of these bytes the first reply has: its line, and the page after it with its newline.
fn reply_length(written: &[u8]) -> usize {
    let line = written
        .iter()
        .position(|byte| *byte == b'\n')
        .unwrap_or(written.len());
    let page = match str::from_utf8(written.get(..line).unwrap_or(written)) {
        Ok(line) => page_length(line),
        Err(_) => None,
    };
    let behind = match page {
        Some(length) => length.saturating_add(1),
        None => 0,
    };
    line.saturating_add(1).saturating_add(behind)
}

// How many replies a step has, one for each shelf where it is a tick or an edit.
fn replies_to(step: &str, shelves: usize) -> usize {
    if step.starts_with("tick ") || step.starts_with("edit ") {
        shelves
    } else {
        1
    }
}

// How many bytes of a text stand after a step, with the newline after them: those of an edit.
fn text_behind(step: &str) -> usize {
    if !step.starts_with("edit ") {
        return 0;
    }
    match step.rsplit_once(' ') {
        Some((_, length)) => length.parse().unwrap_or(0usize).saturating_add(1),
        None => 0,
    }
}

/// Each step after `> `, and so the lines of its text, with its replies below it, and then what else was written.
pub fn transcript(
    alloc: Global,
    steps: &str,
    shelves: usize,
    written: &[u8],
) -> Result<Vec<u8>, AllocError> {
    let mut told = Told::new(alloc);
    let mut rest = written;
    let mut text = 0usize;
    let mut replies = 0;
    for line in steps.lines() {
        told.put(format!(in alloc; "> {line}\n"));
        if text == 0 {
            text = text_behind(line);
            replies = replies_to(line, shelves);
        } else {
            text = text.saturating_sub(line.len().saturating_add(1));
        }
        if text == 0 {
            for _ in 0..replies {
                let (reply, behind) = rest.split_at(reply_length(rest).min(rest.len()));
                told.add(reply);
                rest = behind;
            }
        }
    }
    told.add(rest);
    told.all()
}
