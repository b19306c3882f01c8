//! A script, visits of it, and what they print.
use crate::outside::{FAIR, Machine, emptied, status_over};
use crate::texts::input_of;
use std::alloc::Global;
use std::test::Fail;

/// A script that asks for two numbers, and shows their sum.
pub const SUM: &str =
    "(let ((a (string->number (extract-binding/single 'n (send/suspend (lambda (u) (list 'a (list (list 'href u)) \"1\")))))) (b (string->number (extract-binding/single 'n (send/suspend (lambda (u) (list 'a (list (list 'href u)) \"2\"))))))) (list 'p (number->string (+ a b))))";

// A sum goes on.
const FIRST_STEPS: &str = "get 0 /servlets/sum
get 0 /servlets/sum;0*0*0*0000000000000000?n=3
get 0 /servlets/sum;0*0*1*0000000000000001?n=4
";

// A sum goes on over each of two shelves.
const STEPS_OF_TWO: &str = "get 0 /servlets/sum
get 0 /servlets/sum;0*0*0*0000000000000000?n=3
get 0 /servlets/sum;0*0*1*0000000000000001?n=4
get 1 /servlets/sum
get 1 /servlets/sum;1*0*0*0000000000000000?n=3
get 1 /servlets/sum;1*0*1*0000000000000001?n=4
";

// A sum goes on, back, and again.
const STEPS: &str = "get 0 /servlets/sum
get 0 /servlets/sum;0*0*0*0000000000000000?n=3
get 0 /servlets/sum;0*0*1*0000000000000001?n=4
get 0 /servlets/sum;0*0*0*0000000000000000?n=10
get 0 /servlets/sum;0*0*3*0000000000000003?n=4
";

/// What these visits print, one write a reply.
pub const SUMS_PRINTED: &str = r#"0 200 52
<a href="/servlets/sum;0*0*0*0000000000000000">1</a>
0 200 52
<a href="/servlets/sum;0*0*1*0000000000000001">2</a>
0 200 8
<p>7</p>
0 200 52
<a href="/servlets/sum;0*0*3*0000000000000003">2</a>
0 200 9
<p>14</p>
"#;

/// The input of these visits.
pub fn sums(alloc: Global) -> Result<String, Fail> {
    input_of(alloc, ("sum", SUM), STEPS)
}

// Plays this input over an empty folder with so many shelves.
fn play_into<R: Machine>(rt: &R, folder: &str, shelves: &str, input: &str) -> Result<(), Fail> {
    emptied(rt, folder)?;
    let words = &[
        "hovgyelit",
        "play",
        "--journal",
        folder,
        "--shelves",
        shelves,
    ];
    if status_over(rt, words, input.as_bytes(), &FAIR)? == 0 {
        return Ok(());
    }
    Err(Fail::from("a journal that is not played"))
}

/// Plays the first of these visits, one after the other, over an empty folder with so many shelves.
pub fn play_first_sums<R: Machine>(rt: &R, folder: &str, shelves: &str) -> Result<(), Fail> {
    let input = input_of(rt.alloc(), ("sum", SUM), FIRST_STEPS)?;
    play_into(rt, folder, shelves, input.as_str())
}

/// Plays the first visits of each of two shelves over an empty folder.
pub fn play_sums_of_two<R: Machine>(rt: &R, folder: &str) -> Result<(), Fail> {
    let input = input_of(rt.alloc(), ("sum", SUM), STEPS_OF_TWO)?;
    play_into(rt, folder, "2", input.as_str())
}
