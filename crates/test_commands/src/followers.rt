//! A leader's journal in files, whose feed a follower takes, which is then promoted.

use crate::outside::{
    FAIR, FULL, Machine, Outside, STUCK, UNREAD, Written, comes_to, emptied, outcome_of, stands_in,
    status_over,
};
use crate::servings::{ALL, are_told, served};
use crate::streets::{A_START, AN_ANSWER, QUIET, Street};
use crate::transcripts::{SUM, play_first_sums, play_sums_of_two};
use std::fs;
use std::test::Fail;

// The feed of a shelf, for which no input is read.
fn feed_of<R: Machine>(rt: &R, folder: &str, shelf: &str) -> Result<Vec<u8>, Fail> {
    let words = &["hovgyelit", "export", "--journal", folder, "--shelf", shelf];
    let Written {
        status,
        bytes,
        handed,
    } = outcome_of(rt, words, b"", &UNREAD)?;
    if status == 0 && handed {
        return Ok(bytes);
    }
    Err(Fail::from("no feed"))
}

// Whether a shelf has this feed.
fn has_feed<R: Machine>(rt: &R, folder: &str, shelf: &str, feed: &[u8]) -> Result<bool, Fail> {
    let own = feed_of(rt, folder, shelf)?;
    Ok(own.as_slice() == feed)
}

// Whether the feed of the first shelf has so many bytes.
fn has_feed_of<R: Machine>(rt: &R, folder: &str, length: usize) -> Result<bool, Fail> {
    let feed = feed_of(rt, folder, "0")?;
    Ok(feed.len() == length)
}

// Whether following this feed comes to this.
fn is_followed<R: Machine>(
    rt: &R,
    folder: &str,
    shelf: &str,
    feed: &[u8],
    told: (u8, &str),
) -> Result<bool, Fail> {
    let words = &["hovgyelit", "follow", "--journal", folder, "--shelf", shelf];
    comes_to(rt, words, feed, &FAIR, told)
}

// Whether promoting so many shelves, for which no input is read, comes to this.
fn is_promoted<R: Machine>(
    rt: &R,
    folder: &str,
    shelves: &str,
    told: (u8, &str),
) -> Result<bool, Fail> {
    let words = &[
        "hovgyelit",
        "promote",
        "--journal",
        folder,
        "--shelves",
        shelves,
    ];
    comes_to(rt, words, b"", &UNREAD, told)
}

// Whether an audit of one shelf comes to this.
fn is_audited<R: Machine>(rt: &R, folder: &str, told: &str) -> Result<bool, Fail> {
    let words = &["hovgyelit", "audit", "--journal", folder];
    comes_to(rt, words, b"", &UNREAD, (0, told))
}

// The last answer of the first sums.
const LAST_VISIT: Street = Street {
    links: &["GET /servlets/sum;0*0*1*0000000000000001?n=4 HTTP/1.0\r\n\r\n"],
    ..QUIET
};

// Whether the first link is told this while a script is served over the journals of a folder: how the reply begins, and how it ends.
fn is_served<R: Machine>(
    rt: &R,
    folder: &str,
    script: (&str, &str),
    street: &Street,
    told: (&str, &str),
) -> Result<bool, Fail> {
    let words = &[
        "hovgyelit",
        "serve",
        "--port",
        "0",
        "--workers",
        "1",
        "--journal",
        folder,
    ];
    let ending = served(rt, words, script, street)?;
    Ok(are_told(&ending, &[told]))
}

// Whether that answer is told this over a folder.
fn is_answered<R: Machine>(rt: &R, folder: &str, told: (&str, &str)) -> Result<bool, Fail> {
    is_served(rt, folder, ("sum", SUM), &LAST_VISIT, told)
}

const FOLLOWING: (&str, &str) = ("HTTP/1.1 503 ", "\r\n\r\nfollowing\n");

const SEVEN: (&str, &str) = ("HTTP/1.1 200 ", "\r\n\r\n<p>7</p>");

const FOUR: &str = "ack 1\nack 2\nack 3\nack 4\n";

// How each feed begins.
const HEAD: &[u8] = b"KSFEED\0\x06";

// What is done with the journals of a folder, and what comes of it.
enum Step {
    // The feed has so many bytes, and begins as each does.
    Has(usize),
    // A shelf follows the feed.
    Follow(&'static str, (u8, &'static str)),
    // The first shelf follows the first so many bytes of the feed.
    FollowFront(usize, (u8, &'static str)),
    // The first shelf follows the feed over such an outside.
    FollowOver(Outside<'static>, (u8, &'static str)),
    // The first shelf is exported, and has the same feed.
    IsFed,
    // The first shelf is exported, and its feed has so many bytes.
    IsFedBytes(usize),
    // The first shelf is audited.
    Audit(&'static str),
    // So many shelves are promoted.
    Promote(&'static str, &'static str),
    // The last answer of the first sums is served.
    Answer((&'static str, &'static str)),
}

// Whether that comes of a step over this folder and this feed.
fn comes_of<R: Machine>(rt: &R, folder: &str, feed: &[u8], step: &Step) -> Result<bool, Fail> {
    match step {
        Step::Has(length) => Ok(feed.len() == *length && feed.starts_with(HEAD)),
        Step::Follow(shelf, told) => is_followed(rt, folder, shelf, feed, *told),
        Step::FollowFront(length, told) => {
            let front = &feed[..(*length).min(feed.len())];
            is_followed(rt, folder, "0", front, *told)
        }
        Step::FollowOver(outside, told) => {
            let words = &["hovgyelit", "follow", "--journal", folder];
            comes_to(rt, words, feed, outside, *told)
        }
        Step::IsFed => has_feed(rt, folder, "0", feed),
        Step::IsFedBytes(length) => has_feed_of(rt, folder, *length),
        Step::Audit(told) => is_audited(rt, folder, told),
        Step::Promote(shelves, told) => is_promoted(rt, folder, shelves, (0, *told)),
        Step::Answer(told) => is_answered(rt, folder, *told),
    }
}

// How many of these steps, which begin with an empty folder, come to what they say before one does not.
fn count_done<R: Machine>(
    rt: &R,
    folder: &str,
    feed: &[u8],
    steps: &[Step],
) -> Result<usize, Fail> {
    emptied(rt, folder)?;
    for (count, step) in steps.iter().enumerate() {
        if !comes_of(rt, folder, feed, step)? {
            return Ok(count);
        }
    }
    Ok(steps.len())
}

// How many of them come to that over the feed of a leader's shelf.
fn count_fed<R: Machine>(
    rt: &R,
    leader: &str,
    shelf: &str,
    follower: &str,
    steps: &[Step],
) -> Result<usize, Fail> {
    let feed = feed_of(rt, leader, shelf)?;
    count_done(rt, follower, &feed, steps)
}

const A_PROMOTION: &[Step] = &[
    Step::Has(614),
    Step::Follow("0", (0, FOUR)),
    Step::Follow("0", (0, FOUR)),
    Step::IsFed,
    Step::Answer(FOLLOWING),
    Step::Audit("shelf 0 ok 5\n"),
    Step::Promote("1", "shelf 0 promoted\n"),
    Step::Promote("1", "shelf 0 leader\n"),
    Step::Audit("shelf 0 ok 6\n"),
    Step::Answer(SEVEN),
    Step::Follow("0", (13, "error 13 0 promoted\n")),
];

#[test]
fn a_follower_is_promoted_and_goes_on(rt: HostRuntime) -> Result<(), Fail> {
    let leader = "leader-of-sums";
    let follower = "follower-of-sums";
    play_first_sums(&rt, leader, "2")?;
    let done = count_fed(&rt, leader, "0", follower, A_PROMOTION)?;
    assert_eq!(rt; done, A_PROMOTION.len());
    emptied(&rt, leader)?;
    emptied(&rt, follower)
}

// A byte of a feed, the other one that stands in its place, and what following comes to on disks that hold so many of the feed's first bytes.
struct Change {
    byte: usize,
    other: u8,
    held: usize,
    told: (u8, &'static str),
}

const CHANGES: &[Change] = &[
    Change {
        byte: 7,
        other: 5,
        held: 8,
        told: (13, "error 13 0 head\n"),
    },
    // The number of the shelf.
    Change {
        byte: 13,
        other: 1,
        held: 8,
        told: (13, "error 13 8 record\n"),
    },
    // The kind of the third record.
    Change {
        byte: 407,
        other: 9,
        held: 300,
        told: (13, "ack 1\nack 2\nerror 13 403 record\n"),
    },
    Change {
        byte: 407,
        other: 9,
        held: 614,
        told: (13, "ack 1\nack 2\nerror 13 403 other\n"),
    },
];

// Whether following such a feed comes to this.
fn is_refused<R: Machine>(
    rt: &R,
    folder: &str,
    feed: &[u8],
    change: &Change,
) -> Result<bool, Fail> {
    let mut other = feed.to_vec(rt.alloc())?;
    if let Some(byte) = other.get_mut(change.byte) {
        *byte = change.other;
    }
    is_followed(rt, folder, "0", &other, change.told)
}

// Whether following such a feed comes to this on disks that hold a front of the feed, and nothing else.
fn is_refused_behind<R: Machine>(rt: &R, feed: &[u8], change: &Change) -> Result<bool, Fail> {
    let folder = "refused-feeds";
    if change.held > feed.len() {
        return Err(Fail::from("another feed"));
    }
    emptied(rt, folder)?;
    let words = &["hovgyelit", "follow", "--journal", folder];
    let status = status_over(rt, words, &feed[..change.held], &FAIR)?;
    let is_told = is_refused(rt, folder, feed, change)?;
    emptied(rt, folder)?;
    Ok(status == 0 && is_told)
}

// Refuses a feed of which a change is told otherwise.
fn expect_changes<R: Machine>(rt: &R, feed: &[u8]) -> Result<(), Fail> {
    for change in CHANGES {
        if !is_refused_behind(rt, feed, change)? {
            return Err(Fail::from(change.told.1));
        }
    }
    Ok(())
}

// Whether a leader does not follow its own feed, of which each change is told so.
fn is_no_follower<R: Machine>(rt: &R, leader: &str) -> Result<bool, Fail> {
    let feed = feed_of(rt, leader, "0")?;
    expect_changes(rt, &feed)?;
    is_followed(rt, leader, "0", &feed, (13, "error 13 0 promoted\n"))
}

#[test]
fn another_feed_is_told_at_its_place(rt: HostRuntime) -> Result<(), Fail> {
    let leader = "leader-of-others";
    play_first_sums(&rt, leader, "2")?;
    assert!(rt; is_no_follower(&rt, leader)?);
    emptied(&rt, leader)
}

const CUTS: &[Step] = &[
    Step::FollowFront(0, (13, "error 13 0 cut\n")),
    Step::FollowFront(354, (13, "ack 1\nerror 13 300 cut\n")),
    Step::IsFedBytes(300),
    Step::Follow("0", (0, FOUR)),
];

#[test]
fn a_feed_that_is_cut_is_told_at_its_place(rt: HostRuntime) -> Result<(), Fail> {
    let leader = "leader-of-cuts";
    let follower = "follower-of-cuts";
    play_first_sums(&rt, leader, "2")?;
    let done = count_fed(&rt, leader, "0", follower, CUTS)?;
    assert_eq!(rt; done, CUTS.len());
    emptied(&rt, leader)?;
    emptied(&rt, follower)
}

const A_SECOND_SHELF: &[Step] = &[
    Step::Follow("0", (13, "error 13 8 record\n")),
    Step::Follow("1", (0, FOUR)),
    Step::Promote("3", "shelf 0 promoted\nshelf 1 promoted\nshelf 2 leader\n"),
];

// Each shelf has a feed and a follower of its own; those of two are promoted in order.
#[test]
fn each_shelf_has_its_follower(rt: HostRuntime) -> Result<(), Fail> {
    let leader = "leader-of-two";
    let follower = "follower-of-two";
    play_sums_of_two(&rt, leader)?;
    let done = count_fed(&rt, leader, "1", follower, A_SECOND_SHELF)?;
    assert_eq!(rt; done, A_SECOND_SHELF.len());
    emptied(&rt, leader)?;
    emptied(&rt, follower)
}

// An empty folder has shelves without records: each is left a leader.
#[test]
fn nothing_has_an_empty_feed(rt: HostRuntime) -> Result<(), Fail> {
    let folder = "leader-of-nothing";
    emptied(&rt, folder)?;
    assert!(rt; has_feed(&rt, folder, "15", HEAD)?);
    assert!(rt; is_promoted(&rt, folder, "2", (0, "shelf 0 leader\nshelf 1 leader\n"))?);
    emptied(&rt, folder)
}

// Words of no command.
const NO_COMMANDS: &[&[&str]] = &[
    &["hovgyelit", "export", "--shelf", "16"],
    &["hovgyelit", "export", "--shelves", "1"],
    &["hovgyelit", "follow", "--shelf", "-1"],
    &["hovgyelit", "follow", "0"],
    &["hovgyelit", "promote", "--shelf", "0"],
    &["hovgyelit", "promote", "--shelves", "17"],
];

#[test]
fn other_words_are_refused(rt: HostRuntime) -> Result<(), Fail> {
    for words in NO_COMMANDS {
        assert!(rt;
            comes_to(&rt, words, b"", &FAIR, (2, "error 2 usage\n"))?,
            "{words:?}"
        );
    }
    Ok(())
}

// An input that is read piece by piece, and fails at the third.
const CUT_OFF: Outside<'static> = Outside {
    reads: &[2],
    greatest: 310,
    ..FAIR
};

// An output with room for one acknowledgment.
const SHORT: Outside<'static> = Outside { room: 6, ..FAIR };

const FAILURES: &[Step] = &[
    Step::FollowOver(UNREAD, (5, "error 5 read\n")),
    Step::FollowOver(CUT_OFF, (5, "error 5 read\n")),
    Step::FollowOver(STUCK, (6, "ack 1\n")),
    Step::FollowOver(SHORT, (6, "ack 1\n")),
    Step::IsFedBytes(403),
];

// The status of a command that reads nothing, and whose output, which may be no text, hands nothing on.
fn stuck_at<R: Machine>(rt: &R, words: &[&str]) -> Result<u8, Fail> {
    let outcome = outcome_of(rt, words, b"", &STUCK)?;
    Ok(outcome.status)
}

// Whether such a command ends with 6 where its output takes no byte, and where it hands nothing on.
fn ends_unwritten<R: Machine>(rt: &R, words: &[&str]) -> Result<bool, Fail> {
    Ok(comes_to(rt, words, b"", &FULL, (6, ""))? && stuck_at(rt, words)? == 6)
}

#[test]
fn an_outside_that_fails_is_told(rt: HostRuntime) -> Result<(), Fail> {
    let leader = "leader-of-failures";
    let follower = "follower-of-failures";
    play_first_sums(&rt, leader, "2")?;
    let done = count_fed(&rt, leader, "0", follower, FAILURES)?;
    assert_eq!(rt; done, FAILURES.len());
    let export = &["hovgyelit", "export", "--journal", leader];
    let promote = &["hovgyelit", "promote", "--journal", follower];
    assert!(rt; ends_unwritten(&rt, export)?);
    assert!(rt; ends_unwritten(&rt, promote)?);
    emptied(&rt, leader)?;
    emptied(&rt, follower)
}

// A page with a link, and the page that shows the answer to it.
const ONE: (&str, &str) = ("HTTP/1.1 200 ", "\">1</a>");

const SHOWN: (&str, &str) = ("HTTP/1.1 200 ", "\r\n\r\n<p>1</p>");

// Whether a follower takes the feed of a leader's one page.
fn takes_page<R: Machine>(rt: &R, leader: &str, follower: &str) -> Result<bool, Fail> {
    let feed = feed_of(rt, leader, "0")?;
    is_followed(rt, follower, "0", &feed, (0, "ack 1\nack 2\n"))
}

// Whether a server over an empty folder shows a page, and a follower in another one takes its feed.
fn takes_first_page<R: Machine>(rt: &R, leader: &str, follower: &str) -> Result<bool, Fail> {
    emptied(rt, leader)?;
    emptied(rt, follower)?;
    Ok(is_served(rt, leader, ALL, &A_START, ONE)? && takes_page(rt, leader, follower)?)
}

// Whether a server over a follower tells that it follows, and leaves this file as it is.
fn is_left_following<R: Machine>(rt: &R, folder: &str, path: &str) -> Result<bool, Fail> {
    let before = fs::read(rt, path)?;
    let is_told = is_served(rt, folder, ALL, &AN_ANSWER, FOLLOWING)?;
    Ok(stands_in(rt, path, before.as_slice())? && is_told)
}

#[test]
fn a_server_takes_over(rt: HostRuntime) -> Result<(), Fail> {
    let leader = "served-leader";
    let follower = "served-follower";
    assert!(rt; takes_first_page(&rt, leader, follower)?);
    assert!(rt; is_left_following(&rt, follower, "served-follower/shelf-0")?);
    assert!(rt; is_promoted(&rt, follower, "1", (0, "shelf 0 promoted\n"))?);
    assert!(rt; is_served(&rt, follower, ALL, &AN_ANSWER, SHOWN)?);
    emptied(&rt, leader)?;
    emptied(&rt, follower)
}
