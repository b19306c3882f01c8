//! Streets: how a serving over links in memory is treated.

use std::alloc::Global;
use std::test::Fail;
use web_outside::{ListDoor, ListPorch, TextLink, TextSink, TextSource};

/// How a serving is treated: what its links send to the first worker and to the second, if there is one, and which calls of the
/// first one for the next link fail.
#[derive(Clone, Copy)]
pub struct Street {
    pub links: &'static [&'static str],
    pub others: Option<&'static [&'static str]>,
    pub nexts: &'static [u64],
}

/// No link comes in, and nothing fails.
pub const QUIET: Street = Street {
    links: &[],
    others: None,
    nexts: &[],
};

/// A start of the script `all`.
pub const A_START: Street = Street {
    links: &["GET /servlets/all HTTP/1.0\r\n\r\n"],
    ..QUIET
};

/// An answer to the page that the first start of it shows.
pub const AN_ANSWER: Street = Street {
    links: &["GET /servlets/all;0*0*0*0000000000000000?n=1 HTTP/1.0\r\n\r\n"],
    ..QUIET
};

// A link that sends this.
fn link_of(alloc: Global, sends: &str) -> Result<TextLink, Fail> {
    let sends = sends.as_bytes().to_vec(alloc)?;
    Ok(TextLink {
        input: TextSource::new(sends, Vec::new(alloc), 4096),
        output: TextSink::new(alloc, 100_000, Vec::new(alloc))?,
    })
}

// A porch with these links, of which the calls for the next one with these numbers fail.
fn porch_of(alloc: Global, links: &[&str], nexts: &[u64]) -> Result<ListPorch, Fail> {
    let mut coming = Vec::new(alloc);
    for sends in links {
        coming.push(link_of(alloc, sends)?)?;
    }
    Ok(ListPorch::new(alloc, coming, nexts.to_vec(alloc)?)?)
}

/// The door at which the links of a street come in, at the port 0.
pub fn door_of(alloc: Global, street: &Street) -> Result<ListDoor, Fail> {
    let mut porches = Vec::new(alloc);
    porches.push(porch_of(alloc, street.links, street.nexts)?)?;
    if let Some(others) = street.others {
        porches.push(porch_of(alloc, others, &[])?)?;
    }
    Ok(ListDoor::new(alloc, 0, porches, Vec::new(alloc)))
}
