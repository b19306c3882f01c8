//! What the records of a journal's file make of a shelf, and which bodies a compacted file has, without code: for recovery and the shelf.
#![tactic(auto)]

ghost use Rattle.std.specs.Prelude.{IsTrue};
ghost use Rattle.journal_spec.specs.Bodies.{CompactionCopies};
ghost use Rattle.journal_spec.specs.Copying.{CopiesMakeTheBook, MigrationsMakeTheBook};
ghost use Rattle.journal_spec.specs.OwnCopies.{CopiesAreOwn};
ghost use Rattle.journal_spec.specs.Files.{FilesAreMade, CompactionIsWritten};
ghost use Rattle.journal_spec.specs.Events.{BodiesGrow, EventsAreWritten, FreshFilesSuffice};
ghost use Rattle.journal_spec.specs.Migrating.{MigrationIsWritten};
ghost use Rattle.journal_spec.specs.Spelling.{WhatIsRecordedIsSpelled, RangesAreKept};
ghost use Rattle.journal_spec.specs.Depths.{RunsStayShallow};
ghost use Rattle.journal_spec.specs.Reading.{ReadersMakeTheBook};
ghost use Rattle.journal_spec.specs.Laws.{OnlyItsBeginBegins, ImagesMakeBooks, OpenedImagesMakeBooks, BooksStandAlike, ACrashIsLostOrKept, CrashesOpen, ASetupIsItsTexts, BodiesMakeFittingBooks, BodiesOfAnyFormatFit, FreshJournalsAreKept, RenewalsAreKept, OpeningsAreRecords, RenewalsStandBetween, LandingsAreKept, LandingsStandBetween, EventsAreKept, EventsStandBetween, CompactionsStandBetween, MigrationsStandBetween, OwnStatesAreTold, RunsAreKept};
ghost use Rattle.journal_spec.specs.Feeding.{FollowersMakeTheBook, OneBodyMore, PromotionsMakeTheBook, BodiesStandBetween, FedJournalsAreOwn, FollowersAreTold, FrontsAreThese, LaterJournalsAreKept};
ghost use Rattle.journal_spec.specs.Disks.{RecoveriesStay, RecoveriesFindOne, OpeningsStay, SettledJournalsStand, QuietCallsStand, WritesStandBetween, CallsLeaveStanding};

use journal_records::records_are_exact;
use page_journal::Take;
use web_disk::Disk;

/// The bodies of a file that passes over no record make what the file makes, and tell each page's state as its chain leaves it.
pub fn files_are_made()
    ensures { FilesAreMade }
{}

/// To compact a file is to copy bodies: those that stay are the bodies of the compacted file.
pub fn compaction_copies()
    ensures { CompactionCopies }
{}

/// The bodies that a compaction copies make the book of the compacted file, whoever wrote them.
pub fn copies_make_the_book()
    ensures { CopiesMakeTheBook }
{
    records_are_exact();
}

/// The bodies of a file of any format that stay, written in the newest one, make the book of the file again, whoever wrote it.
pub fn migrations_make_the_book()
    ensures { MigrationsMakeTheBook }
{
    records_are_exact();
}

/// The bodies of a compacted file have own states, where those of the file before have, and none of them is passed over.
pub fn copies_are_own()
    ensures { CopiesAreOwn }
{
    records_are_exact();
}

/// A compacted file is one that can be written: so its bodies make the same book.
pub fn compaction_is_written()
    ensures { CompactionIsWritten }
{}

/// What lands, and another setup that is given at a crash, is one body more.
pub fn bodies_grow()
    ensures { BodiesGrow }
{}

/// A file that can be written stays one, by each event.
pub fn events_are_written()
    ensures { EventsAreWritten }
{}

/// What the file of a fresh shelf holds after a run makes the run's last book, as after a crash.
pub fn fresh_files_suffice()
    ensures { FreshFilesSuffice }
{}

/// What a publish records can be written, on a book in range, where its values can: it is not too long, and its numbers
/// are such as records tell.
pub fn what_is_recorded_is_spelled()
    ensures { WhatIsRecordedIsSpelled }
{}

/// Each event keeps numbers and clock in range.
pub fn ranges_are_kept()
    ensures { RangesAreKept }
{}

/// A file of an older format can be written in the format of now, whatever bodies told it.
pub fn migration_is_written()
    ensures { MigrationIsWritten }
{}

/// A run over values that nest no deeper than one may that is written reads and writes such values.
pub fn runs_stay_shallow()
    ensures { RunsStayShallow }
{}

// Of one file, as records and setups are added to it.

/// The record of its setup, which a journal of this shelf begins with, makes an empty book, where its names and texts are a setup.
pub fn only_its_begin_begins()
    ensures { OnlyItsBeginBegins }
{}

/// What a disk that stands between two books may hold after a crash makes one of them.
pub fn images_make_books()
    ensures { ImagesMakeBooks }
{}

/// What a disk may hold after a crash in an opening makes one of the two books between which it stood, or one of these with
/// the setup that it is opened with.
pub fn opened_images_make_books()
    ensures { OpenedImagesMakeBooks }
{}

/// Of a book records tell what is left of it after a crash, and nothing of the numbers that are out on it.
pub fn books_stand_alike()
    ensures { BooksStandAlike }
{}

/// What a disk that stands for a book may hold after a crash makes the book of the event crash, what is in doubt lost or
/// kept.
pub fn a_crash_is_lost_or_kept()
    ensures { ACrashIsLostOrKept }
{}

/// A shelf that is opened after a crash has the book of the event crash, whichever setup it is opened with.
pub fn crashes_open()
    ensures { CrashesOpen }
{}

/// A setup with the names and texts of the one before is that one.
pub fn a_setup_is_its_texts()
    ensures { ASetupIsItsTexts }
{}

/// What any bodies make is a book of this shelf, as after a crash, that can go on; and the journal is as long as it tells.
pub fn bodies_make_fitting_books()
    ensures { BodiesMakeFittingBooks }
{
    records_are_exact();
}

/// What any bodies make in any format is such a book too.
pub fn bodies_of_any_format_fit()
    ensures { BodiesOfAnyFormatFit }
{
    records_are_exact();
}

/// The first record of a journal makes the empty book of its setup, which can go on.
pub fn fresh_journals_are_kept()
    ensures { FreshJournalsAreKept }
{
    records_are_exact();
}

/// The body of a record of another setup makes the book of the shelf that is opened with it.
pub fn renewals_are_kept()
    ensures { RenewalsAreKept }
{
    records_are_exact();
}

/// What a shelf goes on with that is opened with a setup is what its records make with the body that it writes.
pub fn openings_are_records()
    ensures { OpeningsAreRecords }
{
    records_are_exact();
}

/// With that body in flight a disk stands between the book before and the one with that setup.
pub fn renewals_stand_between()
    ensures { RenewalsStandBetween }
{
    records_are_exact();
}

/// The body of a record that would be taken makes the book after its change, whatever its page's state is.
pub fn landings_are_kept()
    ensures { LandingsAreKept }
{
    records_are_exact();
}

/// With that body in flight a disk stands between the book before the change and the book after it.
pub fn landings_stand_between()
    ensures { LandingsStandBetween }
{
    records_are_exact();
}

/// The bodies of the records that an event leaves make of the journal's book the book after the event.
pub fn events_are_kept()
    ensures { EventsAreKept }
{
    records_are_exact();
}

/// With the body in flight that an event leaves, a disk stands between the book before the event and the book after it.
pub fn events_stand_between()
    ensures { EventsStandBetween }
{
    records_are_exact();
}

/// With the copies in flight that a compaction makes, a disk stands between the book before and the one with the compacted
/// file.
pub fn compactions_stand_between()
    ensures { CompactionsStandBetween }
{
    records_are_exact();
}

/// With what a migration writes in flight, a disk stands between the book of a file of any format and the one with the new file.
pub fn migrations_stand_between()
    ensures { MigrationsStandBetween }
{
    records_are_exact();
}

/// What a journal told of each page is the state that its script left there, where its states are own ones.
pub fn own_states_are_told()
    ensures { OwnStatesAreTold }
{}

/// The bodies that a run leaves after those of a journal with own states make the run's last book, over crashes and
/// under rules and setups that change.
pub fn runs_are_kept()
    ensures { RunsAreKept }
{
    records_are_exact();
}

// Of shelves that follow another one's journal.

/// The records that a shelf is fed make of it what they make of their own shelf, but for the length of its file, and that it follows.
pub fn followers_make_the_book()
    ensures { FollowersMakeTheBook }
{
    records_are_exact();
}

/// What bodies make with one more is what that one makes after them.
pub fn one_body_more()
    ensures { OneBodyMore }
{}

/// One body more promotes a shelf that follows: its book stays, but for the length of its file.
pub fn promotions_make_the_book()
    ensures { PromotionsMakeTheBook }
{
    records_are_exact();
}

/// A shelf that is fed a journal with own states has own states, also once it is promoted.
pub fn fed_journals_are_own()
    ensures { FedJournalsAreOwn }
{
    records_are_exact();
}

/// A shelf follows only where the first record of its file tells so, in the newest format.
pub fn followers_are_told()
    ensures { FollowersAreTold }
{
    records_are_exact();
}

/// Which records make nothing, which a shelf that waits for the first record of the journal that it follows, and which one that waited.
pub fn fronts_are_these()
    ensures { FrontsAreThese }
{
    records_are_exact();
}

/// After the records of a shelf that waited, a journal begins as in a file of its own.
pub fn later_journals_are_kept()
    ensures { LaterJournalsAreKept }
{
    records_are_exact();
}

/// With any body in flight, a disk stands between the book of those before it and the book of all.
pub fn bodies_stand_between()
    ensures { BodiesStandBetween }
{
    records_are_exact();
}

// Of disks, by the calls of their journals.

/// Whatever two books a disk stood between, at each moment of a recovery a crash leaves it there.
pub fn recoveries_stay<D: Disk>()
    ensures { RecoveriesStay D.view }
{}

/// The book that is made of what is read there is one of the two.
pub fn recoveries_find_one<D: Disk>()
    ensures { IsTrue D.tells → RecoveriesFindOne D.view }
{}

/// At each moment of an opening with a setup a crash leaves a disk between the two books, or one of them and it with that
/// setup.
pub fn openings_stay<D: Disk>()
    ensures { OpeningsStay D.view }
{}

/// A journal that can go on stands for the book that its records make, where nothing is in doubt.
pub fn settled_journals_stand<D: Disk>()
    ensures { SettledJournalsStand D.view }
{}

/// A call that leaves no new image leaves a disk standing for its book, at each moment.
pub fn quiet_calls_stand<D: Disk>()
    ensures { QuietCallsStand D.view }
{}

/// A settled journal that makes room, and then adds a record or gives place to another file, stands between the book before
/// and the one after it, at each moment.
pub fn writes_stand_between<D: Disk>()
    ensures { WritesStandBetween D.view }
{}

/// A call that stood between two books leaves the disk standing for the book that it left, also where it failed.
pub fn calls_leave_standing<D: Disk>()
    ensures { CallsLeaveStanding D.view }
{}

/// A taker that makes what one body more makes, for each body, makes what all of them make.
pub fn readers_make_the_book<T: Take>()
    ensures { ReadersMakeTheBook T.takes }
{}
