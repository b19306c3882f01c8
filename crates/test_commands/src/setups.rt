//! Limits of scripts, as `play` tells them, by texts that are too long for rows.

use crate::outside::{FAIR, Machine, PLAY, comes_to};
use crate::texts::{input_of, repeated};
use std::test::Fail;

#[test]
fn a_text_that_is_no_utf8_is_told(rt: HostRuntime) -> Result<(), Fail> {
    let input = b"script sum 3\n'a\xff\nsteps\n".as_slice();
    let told = (3, "error 3 sum read 2 utf8\n");
    assert!(rt; comes_to(&rt, PLAY, input, &FAIR, told)?);
    Ok(())
}

// What stands before and after the part of a script that is repeated; how often, at most, and what is told of once more.
struct Limit {
    before: &'static str,
    text: &'static str,
    most: usize,
    after: &'static str,
    told: &'static str,
}

const LIMITS: &[Limit] = &[
    Limit {
        before: "",
        text: " ",
        most: 65_534,
        after: "'a",
        told: "error 3 sum read 65536 long\n",
    },
    Limit {
        before: "(list",
        text: " 1",
        most: 16_383,
        after: ")",
        told: "error 3 sum syntax 0 toomany\n",
    },
    Limit {
        before: "(let* (",
        text: "(x 1)",
        most: 1_023,
        after: ") x)",
        told: "error 3 sum syntax 0 toomany\n",
    },
];

// Whether a run of a script with so many repeats ends with this status and text.
fn ends_with<R: Machine>(
    rt: &R,
    limit: &Limit,
    count: usize,
    told: (u8, &str),
) -> Result<bool, Fail> {
    let script = repeated(rt.alloc(), limit.before, limit.text, count, limit.after)?;
    let input = input_of(rt.alloc(), ("sum", script.as_str()), "")?;
    comes_to(rt, PLAY, input.as_bytes(), &FAIR, told)
}

#[test]
fn texts_have_their_limits(rt: HostRuntime) -> Result<(), Fail> {
    for limit in LIMITS {
        let told = limit.told;
        assert!(rt; ends_with(&rt, limit, limit.most, (0, ""))?, "below {told}");
        assert!(rt; ends_with(&rt, limit, limit.most + 1, (3, told))?, "{told}");
    }
    Ok(())
}

const DEEP: &Limit = &Limit {
    before: "",
    text: "(",
    most: 128,
    after: "",
    told: "error 3 sum read 128 deep\n",
};

#[test]
fn a_text_of_parentheses_alone_is_too_deep(rt: HostRuntime) -> Result<(), Fail> {
    assert!(rt; ends_with(&rt, DEEP, 65_536, (3, DEEP.told))?);
    Ok(())
}
