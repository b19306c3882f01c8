//! How a run ends: by its words, by its input and by its output.

use crate::outside::{
    CHECK, FAIR, FULL, Machine, Outcome, Outside, PLAY, STUCK, comes_to, ran, status_over,
};
use crate::servings::SERVE;
use crate::texts::input_of;
use crate::transcripts::{SUMS_PRINTED, sums};
use std::test::Fail;

// Words that a line of rows cannot say.
const NO_COMMANDS: &[&[&str]] = &[&["hovgyelit", ""], &["hovgyelit", "play", "--fuel", ""]];

#[test]
fn an_empty_word_is_refused(rt: HostRuntime) -> Result<(), Fail> {
    for words in NO_COMMANDS {
        assert!(rt;
            comes_to(&rt, words, b"", &FAIR, (2, "error 2 usage\n"))?,
            "{words:?}"
        );
    }
    Ok(())
}

// Lines that rows cannot say: each stands at the input's third line of steps, and is no step.
const NO_STEPS: &[&str] = &[
    "get 1 /none\ntake 2 /servlets/sum\nget 0 /x",
    "get 1 /none\ntake 2 /servlets/sum\nget 0 /x\r\n",
];

// Whether a run of these steps ends after two of them.
fn ends_at_the_third<R: Machine>(rt: &R, steps: &str) -> Result<bool, Fail> {
    let input = input_of(rt.alloc(), ("sum", "'a"), steps)?;
    let told = (4, "1 404 unknown\n2 taken 0\nerror 4 3\n");
    comes_to(rt, PLAY, input.as_bytes(), &FAIR, told)
}

#[test]
fn a_line_ends_with_a_newline_alone(rt: HostRuntime) -> Result<(), Fail> {
    for steps in NO_STEPS {
        assert!(rt; ends_at_the_third(&rt, steps)?, "{steps}");
    }
    Ok(())
}

// Whether a run of the visits of a sum over this outside ends with this status and text.
fn sums_end<R: Machine>(
    rt: &R,
    words: &[&str],
    outside: &Outside,
    told: (u8, &str),
) -> Result<bool, Fail> {
    let input = sums(rt.alloc())?;
    comes_to(rt, words, input.as_bytes(), outside, told)
}

#[test]
fn an_input_is_read_in_pieces_of_any_size(rt: HostRuntime) -> Result<(), Fail> {
    for greatest in [1, 7, 5000] {
        let outside = Outside { greatest, ..FAIR };
        assert!(rt;
            sums_end(&rt, PLAY, &outside, (0, SUMS_PRINTED))?,
            "in pieces of {greatest}"
        );
    }
    Ok(())
}

// Reads that fail, the first being 0.
const READS: &[&[u64]] = &[&[0], &[1]];

#[test]
fn a_failing_read_ends_with_5(rt: HostRuntime) -> Result<(), Fail> {
    for reads in READS {
        let outside = Outside {
            reads,
            greatest: 9,
            ..FAIR
        };
        let told = (5, "error 5 read\n");
        assert!(rt; sums_end(&rt, PLAY, &outside, told)?, "{reads:?}");
        assert!(rt; sums_end(&rt, CHECK, &outside, told)?, "{reads:?}");
    }
    Ok(())
}

// Whether a run ended with status 6, and with a front of what these visits print.
fn is_front(outcome: &Outcome) -> bool {
    let text = outcome.text.as_str();
    outcome.status == 6 && text.len() < SUMS_PRINTED.len() && SUMS_PRINTED.starts_with(text)
}

// Whether the visits of a sum end so over this outside.
fn sums_leave_a_front<R: Machine>(rt: &R, outside: &Outside) -> Result<bool, Fail> {
    let input = sums(rt.alloc())?;
    let outcome = ran(rt, PLAY, input.as_bytes(), outside)?;
    Ok(is_front(&outcome))
}

// Whether they end so where the write of this number fails.
fn leaves_a_front<R: Machine>(rt: &R, failing: u64) -> Result<bool, Fail> {
    let writes = [failing];
    let outside = Outside {
        writes: &writes,
        ..FAIR
    };
    sums_leave_a_front(rt, &outside)
}

// An output with room for twenty bytes.
const SHORT: Outside<'static> = Outside { room: 20, ..FAIR };

#[test]
fn a_failing_write_leaves_a_front(rt: HostRuntime) -> Result<(), Fail> {
    // One write a reply.
    for failing in 0..5 {
        assert!(rt; leaves_a_front(&rt, failing)?, "at write {failing}");
    }
    assert!(rt; sums_end(&rt, PLAY, &SHORT, (6, "0 200 52\n<a href=\"/s"))?);
    Ok(())
}

#[test]
fn a_failing_flush_ends_with_6(rt: HostRuntime) -> Result<(), Fail> {
    assert!(rt; sums_end(&rt, PLAY, &STUCK, (6, SUMS_PRINTED))?);
    Ok(())
}

// Words, an input, and the status that it ends with.
type Run = (&'static [&'static str], &'static str, u8);

// What ends with an error's line.
const ERRORS: &[Run] = &[
    (&["hovgyelit"], "", 2),
    (PLAY, "steps\n", 3),
    (CHECK, "", 3),
    (PLAY, "script a 1\nx\nsteps\n", 3),
    (PLAY, "script a 2\n'a\nsteps\n\n", 4),
    (PLAY, "script a 2\n'a\nsteps\npublish 0\n", 4),
];

// Refuses runs whose output takes no byte, and which end with another status.
fn expect_full<R: Machine>(rt: &R, runs: &[Run]) -> Result<(), Fail> {
    for (words, input, status) in runs {
        if !comes_to(rt, words, input.as_bytes(), &FULL, (*status, ""))? {
            return Err(Fail::from(*input));
        }
    }
    Ok(())
}

// Refuses runs whose output hands nothing on, and which end with another status.
fn expect_stuck<R: Machine>(rt: &R, runs: &[Run]) -> Result<(), Fail> {
    for (words, input, status) in runs {
        if status_over(rt, words, input.as_bytes(), &STUCK)? != *status {
            return Err(Fail::from(*input));
        }
    }
    Ok(())
}

#[test]
fn a_line_of_an_error_that_is_not_written_changes_no_status(rt: HostRuntime) -> Result<(), Fail> {
    expect_full(&rt, ERRORS)?;
    expect_stuck(&rt, ERRORS)
}

// What has replies to write, or else nothing but a flush.
const REPLIES: &[Run] = &[
    (CHECK, "script a 2\n'a\n", 6),
    (PLAY, "script a 2\n'a\nsteps\nget 0 /x\n", 6),
    (PLAY, "script a 2\n'a\nsteps\nget 0 /x\npublish 0\n", 6),
    (PLAY, "script a 2\n'a\nsteps\ntick 1\n", 6),
    (PLAY, "script a 2\n'a\nsteps\n", 0),
];

// What has something to hand on.
const HANDED: &[Run] = &[
    (CHECK, "script a 2\n'a\n", 6),
    (PLAY, "script a 2\n'a\nsteps\n", 6),
];

#[test]
fn a_reply_that_is_not_written_ends_with_6(rt: HostRuntime) -> Result<(), Fail> {
    expect_full(&rt, REPLIES)?;
    expect_stuck(&rt, HANDED)
}

// An output that takes no byte, after an input whose first read fails.
const NOTHING: Outside<'static> = Outside {
    reads: &[0],
    ..FULL
};

#[test]
fn a_failing_read_ends_with_5_where_nothing_can_be_written(rt: HostRuntime) -> Result<(), Fail> {
    assert!(rt; comes_to(&rt, PLAY, b"steps\n", &NOTHING, (5, ""))?);
    Ok(())
}

// An input that is read in long pieces, and the same with an output that takes no byte.
const LONG: Outside<'static> = Outside {
    greatest: 65_536,
    ..FAIR
};

const LONG_AND_FULL: Outside<'static> = Outside { room: 0, ..LONG };

// Words, how the outside treats a run of an input that is too long, and what it writes.
const REFUSED: &[(&[&str], Outside<'static>, &str)] = &[
    (PLAY, LONG, "error 11 long\n"),
    (CHECK, LONG, "error 11 long\n"),
    (SERVE, LONG, "error 11 long\n"),
    (PLAY, LONG_AND_FULL, ""),
];

// Whether this input is too long for each command, and one that is a byte shorter is not.
fn is_too_long<R: Machine>(rt: &R, input: &[u8], shorter: &[u8]) -> Result<bool, Fail> {
    for (words, outside, text) in REFUSED {
        if !comes_to(rt, words, input, outside, (11, *text))? {
            return Ok(false);
        }
    }
    comes_to(rt, PLAY, shorter, &LONG, (3, "error 3 setup 0 section\n"))
}

#[test]
fn a_long_input_is_refused(rt: HostRuntime) -> Result<(), Fail> {
    let long = vec![in rt.alloc(); b' '; 16_777_217]?;
    assert!(rt; is_too_long(&rt, &long, &long[1..])?);
    Ok(())
}
