use script_value::{Value, equal};
use sexp_reader::{ReadFault, read_all};
use std::alloc::{AllocError, Global};

/// The data of a text, or the place and the kind of its first fault.
pub fn data(alloc: Global, text: &[u8]) -> Result<Result<Vec<Value>, String>, AllocError> {
    match read_all(alloc, text) {
        Ok(values) => Ok(Ok(values)),
        Err(ReadFault::At(error)) => {
            let place = error.place;
            let kind = error.kind;
            Ok(Err(format!(in alloc; "{place} {kind:?}")?))
        }
        Err(ReadFault::Memory) => Err(AllocError),
    }
}

/// The first fault of a text, if it has one.
pub fn fault_told(alloc: Global, text: &[u8]) -> Result<String, AllocError> {
    match data(alloc, text)? {
        Ok(_) => String::from_str(alloc, "read"),
        Err(fault) => Ok(fault),
    }
}

/// Whether the texts on both sides of `<-` have the same data.
pub fn alike_told(alloc: Global, texts: &str) -> Result<String, AllocError> {
    let (text, other) = texts.split_once(" <- ").unwrap_or((texts, ""));
    let values = match data(alloc, text.as_bytes())? {
        Ok(values) => values,
        Err(fault) => return Ok(fault),
    };
    let others = match data(alloc, other.as_bytes())? {
        Ok(others) => others,
        Err(fault) => return Ok(fault),
    };
    let alike = values.len() == others.len()
        && values.iter().zip(others.iter()).all(|(a, b)| equal(a, b));
    String::from_str(alloc, if alike { "alike" } else { "other" })
}
