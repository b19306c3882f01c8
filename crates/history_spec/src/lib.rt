//! What callers did on a shelf since it was opened, and which histories are legal, without code: for the site.
#![tactic(auto)]

ghost use Rattle.history_spec.specs.Laws.{HistoriesGoOn, OneEntryIsAStep, EachEventIsAnEntry, HistoriesAreRuns, NoncesComeInTurn, NoNumberTakenTwice, EachPublishHasItsTake, WhatIsOwedIsOut, WhatIsOwedWasTaken, BooksBehindAreSound, ACrashOpens, TheClockNeverFalls, ClosedIsClosed};
ghost use Rattle.history_spec.specs.Passes.{ATurnGoes, CallsCompose, SeenStays, ATakeIsOwed, TwoCallsVisit};
ghost use Rattle.history_spec.specs.Kept.{KeptGoesOn, WhatIsKeptIsSound, WhatIsLeftOpens};
ghost use Rattle.history_spec.specs.Room.{NoneGoesTooSoon};
ghost use Rattle.history_spec.specs.Following.{AFollowerStays};

/// A legal history goes on by each entry that comes next; a front of it is legal; and it stays so while the disk's count of
/// faults rises.
pub fn histories_go_on()
    ensures { HistoriesGoOn }
{}

/// The shelf after one entry more is that of one step.
pub fn one_entry_is_a_step()
    ensures { OneEntryIsAStep }
{}

/// Whatever its fate is, an event that may come makes an entry, of which its fate can be read off.
pub fn each_event_is_an_entry()
    ensures { EachEventIsAnEntry }
{}

/// A legal history is a run of lawful events.
pub fn histories_are_runs()
    ensures { HistoriesAreRuns }
{}

/// No number is taken twice.
pub fn no_number_taken_twice()
    ensures { NoNumberTakenTwice }
{}

/// Takes are given the nonces of the source in turn, and what is left of it are those after them.
pub fn nonces_come_in_turn()
    ensures { NoncesComeInTurn }
{}

/// Each publish is of a ticket that its caller took before, and no two are of one take.
pub fn each_publish_has_its_take()
    ensures { EachPublishHasItsTake }
{}

/// A ticket that a caller owes by its own entries is out, whatever others do, and it is that of the caller's take.
pub fn what_is_owed_is_out()
    ensures { WhatIsOwedIsOut }
{}

/// What a caller owes it took where it was admitted; where it is admitted still, the visit is of the same page.
pub fn what_is_owed_was_taken()
    ensures { WhatIsOwedWasTaken }
{}

/// From a sound book a legal history leads to a sound one, of the same shelf.
pub fn books_behind_are_sound()
    ensures { BooksBehindAreSound }
{}

/// A crash after a legal history leaves a book as it may be when its shelf is opened, and the next history goes on from it.
pub fn a_crash_opens()
    ensures { ACrashOpens }
{}

/// The clock never falls, and after a sweep that was answered it is at the tick, at least.
pub fn the_clock_never_falls()
    ensures { TheClockNeverFalls }
{}

/// After an entry that left a transaction none leaves it, and each on a page inside it is refused without effect, of
/// whichever caller.
pub fn closed_is_closed()
    ensures { ClosedIsClosed }
{}

/// A turn goes on by one entry of its caller or by none, after what the pass had seen and what others did since.
pub fn a_turn_goes()
    ensures { ATurnGoes }
{}

/// Calls of one caller compose, with others' entries between them.
pub fn calls_compose()
    ensures { CallsCompose }
{}

/// What a pass has seen stays a front of the history with all its caller's entries, whatever others do.
pub fn seen_stays()
    ensures { SeenStays }
{}

/// What was taken is owed until it is published, whatever others do, so its publish may come.
pub fn a_take_is_owed()
    ensures { ATakeIsOwed }
{}

/// A take that was told a ticket and, whatever others did since, its publish are a visit.
pub fn two_calls_visit()
    ensures { TwoCallsVisit }
{}

/// What stands between the turns of a lock stands of a shelf that was opened, and each event that may come keeps it.
pub fn kept_goes_on()
    ensures { KeptGoesOn }
{}

/// Of what is kept between turns the book is orderly, each publish that may come is lawful, and the nonces to come are those
/// after the takes.
pub fn what_is_kept_is_sound()
    ensures { WhatIsKeptIsSound }
{}

/// With what a crash may have left, at whatever moment, the shelf may be opened again.
pub fn what_is_left_opens()
    ensures { WhatIsLeftOpens }
{}

/// No page goes for a new one while there is room for it: no more go than are too many with it.
pub fn none_goes_too_soon()
    ensures { NoneGoesTooSoon }
{}

/// A shelf that follows another one's journal stays as it was opened, and answers no visit.
pub fn a_follower_stays()
    ensures { AFollowerStays }
{}
