//! A server whose journal is in files.

use crate::outside::{Machine, emptied};
use crate::servings::{ALL, are_told, served};
use crate::streets::{A_START, AN_ANSWER, QUIET, Street};
use std::test::Fail;

const FOLDER: &str = "kept-by-servers";

const KEPT: &[&str] = &[
    "hovgyelit",
    "serve",
    "--port",
    "0",
    "--workers",
    "1",
    "--journal",
    FOLDER,
];

const CHANGED: &str = "kept-over-two-texts";

const KEPT_CHANGED: &[&str] = &[
    "hovgyelit",
    "serve",
    "--port",
    "0",
    "--workers",
    "1",
    "--journal",
    CHANGED,
];

// A script of the same name with another text.
const OTHER: (&str, &str) = ("all", "'(p \"v2\")");

const AN_ANSWER_AND_A_START: Street = Street {
    links: &[
        "GET /servlets/all;0*0*0*0000000000000000?n=1 HTTP/1.0\r\n\r\n",
        "GET /servlets/all HTTP/1.0\r\n\r\n",
    ],
    ..QUIET
};

// Shows the first page of a script in an empty folder, with these words.
fn serve_first<R: Machine>(rt: &R, words: &[&str], folder: &str) -> Result<(), Fail> {
    emptied(rt, folder)?;
    served(rt, words, ALL, &A_START)?;
    Ok(())
}

// Whether serving a script with these words tells this, and what stands on the links, in their order, begins and ends so.
fn tells<R: Machine>(
    rt: &R,
    words: &[&str],
    script: (&str, &str),
    street: &Street,
    told: (&str, &[(&str, &str)]),
) -> Result<bool, Fail> {
    let ending = served(rt, words, script, street)?;
    Ok(ending.text.as_str() == told.0 && are_told(&ending, told.1))
}

// How what stands on the links begins and ends: an answer, and an answer and a page of the other text.
const ANSWERED: &[(&str, &str)] = &[("", "\r\n\r\n<p>1</p>")];

const BOTH: &[(&str, &str)] = &[("", "\r\n\r\n<p>1</p>"), ("", "\r\n\r\n<p>v2</p>")];

#[test]
fn a_page_is_answered_by_the_next_server(rt: HostRuntime) -> Result<(), Fail> {
    serve_first(&rt, KEPT, FOLDER)?;
    let told = ("pages 1 refused 0\n", ANSWERED);
    assert!(rt; tells(&rt, KEPT, ALL, &AN_ANSWER, told)?);
    emptied(&rt, FOLDER)
}

#[test]
fn a_server_of_another_text_goes_on(rt: HostRuntime) -> Result<(), Fail> {
    serve_first(&rt, KEPT_CHANGED, CHANGED)?;
    let told = ("pages 2 refused 0\n", BOTH);
    assert!(rt; tells(&rt, KEPT_CHANGED, OTHER, &AN_ANSWER_AND_A_START, told)?);
    emptied(&rt, CHANGED)
}
