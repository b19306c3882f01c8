//! A server that audits its journals first.

use crate::outside::{Machine, emptied, overwrite, stands_in};
use crate::servings::{ALL, Ending, are_told, served};
use crate::streets::{A_START, AN_ANSWER, Street};
use std::fs;
use std::test::Fail;

// What serving over the journals of a folder comes to, which are audited first.
fn audited<R: Machine>(rt: &R, folder: &str, street: &Street) -> Result<Ending, Fail> {
    let words = &[
        "hovgyelit",
        "serve",
        "--audit",
        "--port",
        "0",
        "--workers",
        "1",
        "--journal",
        folder,
    ];
    served(rt, words, ALL, street)
}

// Whether that ends well with one page, and what stands on the links, in their order, begins and ends so.
fn passes<R: Machine>(
    rt: &R,
    folder: &str,
    street: &Street,
    links: &[(&str, &str)],
) -> Result<bool, Fail> {
    let ending = audited(rt, folder, street)?;
    let is_told = ending.text.as_str() == "pages 1 refused 0\n" && are_told(&ending, links);
    Ok(ending.status == 0 && is_told)
}

#[test]
fn what_passes_is_served(rt: HostRuntime) -> Result<(), Fail> {
    let folder = "served-behind-audits";
    emptied(&rt, folder)?;
    assert!(rt; passes(&rt, folder, &A_START, &[])?);
    assert!(rt; passes(&rt, folder, &AN_ANSWER, &[("", "\r\n\r\n<p>1</p>")])?);
    emptied(&rt, folder)
}

// The journal of one page, whose deadline, second 3,600, is made the past.
fn make_late<R: Machine>(rt: &R, path: &str) -> Result<(), Fail> {
    overwrite(rt, path, &[16, 14, 0, 0, 0, 0, 0, 0], &[0; 8])
}

// Serves the first page into an empty folder, and makes it late.
fn serve_late<R: Machine>(rt: &R, folder: &str, path: &str) -> Result<(), Fail> {
    emptied(rt, folder)?;
    audited(rt, folder, &A_START)?;
    make_late(rt, path)
}

// Whether a serving ended at the deadline of a page of the first shelf, before a link came in.
fn is_late(ending: &Ending) -> bool {
    let text = ending.text.as_str();
    ending.status == 12
        && text.starts_with("error 12 0 ")
        && text.ends_with(" deadline\n")
        && ending.links.is_empty()
}

// Whether serving over the journals of a folder ends so.
fn ends_late<R: Machine>(rt: &R, folder: &str) -> Result<bool, Fail> {
    let ending = audited(rt, folder, &AN_ANSWER)?;
    Ok(is_late(&ending))
}

// Whether it ends so and leaves this file as it is.
fn is_left_late<R: Machine>(rt: &R, folder: &str, path: &str) -> Result<bool, Fail> {
    let before = fs::read(rt, path)?;
    let is_told = ends_late(rt, folder)?;
    Ok(stands_in(rt, path, before.as_slice())? && is_told)
}

#[test]
fn what_does_not_pass_is_not_served(rt: HostRuntime) -> Result<(), Fail> {
    let folder = "refused-by-audits";
    serve_late(&rt, folder, "refused-by-audits/shelf-0")?;
    assert!(rt; is_left_late(&rt, folder, "refused-by-audits/shelf-0")?);
    emptied(&rt, folder)
}
