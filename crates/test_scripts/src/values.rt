use crate::read::data;
use expiry::all_expired;
use page_names::{Target, parse_target, write_url};
use script_value::{Value, depth, equal, read_number, size};
use std::alloc::{AllocError, Global};
use web_cells::Shades;
use xexpr_page::{RenderFault, render};

/// The page that the last datum of a text is.
pub fn page_told(alloc: Global, text: &str) -> Result<String, AllocError> {
    let values = match data(alloc, text.as_bytes())? {
        Ok(values) => values,
        Err(fault) => return Ok(fault),
    };
    let Some(value) = values.last() else {
        return String::from_str(alloc, "no datum");
    };
    match render(alloc, value) {
        Ok(page) => String::from_str(alloc, str::from_utf8(page.as_slice()).unwrap_or("no text")),
        Err(RenderFault::NotPage) => String::from_str(alloc, "no page"),
        Err(RenderFault::Memory) => Err(AllocError),
    }
}

/// How deep the last datum of a text nests, and its size.
pub fn measures_told(alloc: Global, text: &str) -> Result<String, AllocError> {
    let values = match data(alloc, text.as_bytes())? {
        Ok(values) => values,
        Err(fault) => return Ok(fault),
    };
    let Some(value) = values.last() else {
        return String::from_str(alloc, "no datum");
    };
    let depth = depth(value);
    let size = size(value);
    format!(in alloc; "{depth} {size}")
}

/// The number that a text is.
pub fn number_told(alloc: Global, text: &str) -> Result<String, AllocError> {
    match read_number(text) {
        Some(number) => format!(in alloc; "{number}"),
        None => String::from_str(alloc, "no number"),
    }
}

/// The spelling of what a path names.
pub fn path_told(alloc: Global, path: &str) -> Result<String, AllocError> {
    match parse_target(path.as_bytes()) {
        None => String::from_str(alloc, "nothing"),
        Some(Target::Start(name)) => {
            let name = name.as_str();
            format!(in alloc; "/servlets/{name}")
        }
        Some(Target::Page(name, numbers)) => {
            let url = write_url(alloc, &name, numbers)?;
            String::from_str(alloc, str::from_utf8(url.as_slice()).unwrap_or("no text"))
        }
    }
}

// Whether a frame below one that binds a cell to this value looks the cell up as it does.
fn is_seen_below(alloc: Global, value: &Value) -> Result<bool, AllocError> {
    let mut shades = Shades::root(alloc);
    shades.shadow(3, value.try_clone(alloc)?)?;
    let child = shades.child(alloc)?;
    Ok(match child.lookup(3) {
        Some(seen) => equal(seen, value),
        None => false,
    })
}

/// Whether the last datum of a text, bound in a frame of web cells, is seen in a frame below it.
pub fn child_told(alloc: Global, text: &str) -> Result<String, AllocError> {
    let values = match data(alloc, text.as_bytes())? {
        Ok(values) => values,
        Err(fault) => return Ok(fault),
    };
    let Some(value) = values.last() else {
        return String::from_str(alloc, "no datum");
    };
    String::from_str(
        alloc,
        if is_seen_below(alloc, value)? {
            "seen"
        } else {
            "unseen"
        },
    )
}

// Whether a clock is at or past each of these deadlines, of which it is the first.
fn are_over(numbers: &[u64]) -> &'static str {
    match numbers {
        [clock, deadlines @ ..] => {
            if all_expired(*clock, deadlines) {
                "over"
            } else {
                "open"
            }
        }
        [] => "no clock",
    }
}

/// Whether the first number of a row, as a clock, is at or past each of the others.
pub fn expired_told(alloc: Global, row: &str) -> Result<String, AllocError> {
    let mut numbers = Vec::new(alloc);
    for word in row.split(' ') {
        match word.parse::<u64>() {
            Ok(number) => numbers.push(number)?,
            Err(_) => return String::from_str(alloc, "no number"),
        }
    }
    String::from_str(alloc, are_over(numbers.as_slice()))
}
