//! Measured runs: their lines, and what they end with.

use crate::outside::{FAIR, FULL, UNREAD, comes_to};
use std::test::Fail;

const FIRST: &[&str] = &["hovgyelit", "load", "1"];

const LINE: &str = "steps 20000 pages 9403 refused 5134 hash 358430701d2c1768\n";

// Words, and the line that they print. The hashes are those of what `play` prints of the same steps, which a model of the
// generator beside the program drew.
const RUNS: &[(&[&str], &str)] = &[
    (FIRST, LINE),
    (
        &["hovgyelit", "load", "1", "--shelves", "2"],
        "steps 20000 pages 10929 refused 3134 hash 811f12a9de61a1a6\n",
    ),
    (
        &["hovgyelit", "load", "1", "--shelves", "16"],
        "steps 20000 pages 10902 refused 3202 hash 2c01c6446b675754\n",
    ),
    (
        &["hovgyelit", "load", "7", "--pages", "5"],
        "steps 20000 pages 8990 refused 5757 hash 5f3cfe37606db9f7\n",
    ),
];

#[test]
fn each_run_prints_its_line(rt: HostRuntime) -> Result<(), Fail> {
    for (words, line) in RUNS {
        assert!(rt; comes_to(&rt, words, b"", &FAIR, (0, *line))?, "{words:?}");
    }
    Ok(())
}

#[test]
fn a_run_reads_nothing_and_prints_the_same_again(rt: HostRuntime) -> Result<(), Fail> {
    assert!(rt; comes_to(&rt, FIRST, b"", &UNREAD, (0, LINE))?);
    Ok(())
}

#[test]
fn a_run_whose_line_cannot_be_written_ends_with_6(rt: HostRuntime) -> Result<(), Fail> {
    assert!(rt; comes_to(&rt, FIRST, b"", &FULL, (6, ""))?);
    Ok(())
}
