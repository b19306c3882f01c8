//! What a page script means and what a shelf answers, with laws of both, without code: for every crate that carries it out.
#![tactic(auto)]

ghost use Rattle.replay_spec.specs.Laws.{EffectsHoldRunSame, AHeldRunIsNext, EffectsAreOnCells, RecordedIsPresent, MoreFuelIsTheSame, NamesFollow, OrderlyBooksStay, SoundBooksStay, ReachedBooksAreSound, EachHasItsCells, EachChainReplays, PagesStay, RefusedIsUnchanged, AStartOpensOrLeaves, ClosedIsClosed, NamesStayDifferent, ShownIsOpen, AForwardRevokes, NoNumberTwice, TicketsAreOut, ShadowsRise};
ghost use Rattle.replay_spec.specs.Promises.{TheClockNeverFalls, AShownPageIsAdmitted, NothingElseCloses, NothingElseFrees, AVisitIsAnswered, AFollowerAnswersNoVisit, NoOtherFollows};
ghost use Rattle.replay_spec.specs.Evicting.{NothingElseEvicts, AtMostPages, TheLeastUsedGo, UsesRise};
ghost use Rattle.replay_spec.specs.Remade.{EffectsHold, JournalIsLast, CellsStayNamed, DecisionsAreRemade, EventsAreFiled, FilesSuffice, RecordsMakeFiledBooks, CompactionKeepsTheBook, CompactedTwice, RecordsMakeOrderlyBooks};
ghost use Rattle.replay_spec.specs.Marks.{MarksAreUses};
ghost use Rattle.replay_spec.specs.Migration.{MigrationKeepsTheBook};

// Of single runs of a script.

/// A run whose effects over some cells hold over others comes to the same over those.
pub fn effects_hold_run_same()
    ensures { EffectsHoldRunSame }
{}

/// The effects of a run hold over the cells that it ran over.
pub fn effects_hold()
    ensures { EffectsHold }
{}

/// A publish may take what the first run came to, where its effects hold over the cells of now.
pub fn a_held_run_is_next()
    ensures { AHeldRunIsNext }
{}

/// The effects of a run are on the cells that its script names.
pub fn effects_are_on_cells()
    ensures { EffectsAreOnCells }
{}

/// A run that stops with a page over cells stops with it again over what it read, and reads just this of what is
/// recorded.
pub fn recorded_is_present()
    ensures { RecordedIsPresent }
{}

/// A run that does not end for want of fuel comes to the same under more.
pub fn more_fuel_is_the_same()
    ensures { MoreFuelIsTheSame }
{}

/// A script starts inside no transaction. After a page it leaves transactions of that page alone, and it stops inside
/// the others of these and those that it entered since.
pub fn names_follow()
    ensures { NamesFollow }
{}

/// The bindings of web cells rise in every run, each cell bound once.
pub fn shadows_rise()
    ensures { ShadowsRise }
{}

// Of the books that events lead to.

/// An empty book is orderly, and each lawful event keeps a book so, whatever its fate, with fewer unused numbers.
pub fn orderly_books_stay()
    ensures { OrderlyBooksStay }
{}

/// An empty book is sound, and each lawful event keeps a book so, whatever its fate.
pub fn sound_books_stay()
    ensures { SoundBooksStay }
{}

/// Each book that lawful events lead to from an empty one is sound and of the same shelf, with fewer unused numbers. What
/// is said of sound books holds of these, in every run, over crashes and under rules and setups that change.
pub fn reached_books_are_sound()
    ensures { ReachedBooksAreSound }
{}

/// In an orderly book each instance has as many cells as its script.
pub fn each_has_its_cells()
    ensures { EachHasItsCells }
{}

/// In a sound book the chain of a page is all of its ancestors from the root on, and then the page, and it replays: the
/// script, run from its start over it, shows a page inside the transactions that the page keeps, and reads just what was
/// recorded.
pub fn each_chain_replays()
    ensures { EachChainReplays }
{}

/// A page that was shown stands as long as its instance does, after the pages that it had after it.
pub fn pages_stay()
    ensures { PagesStay }
{}

/// The clock never falls, and what is expired stays so.
pub fn the_clock_never_falls()
    ensures { TheClockNeverFalls }
{}

/// No number is used twice, also over crashes.
pub fn no_number_twice()
    ensures { NoNumberTwice }
{}

/// The numbers that are out are those of the tickets that were taken and not published, each with the target, answer and
/// nonce of its take.
pub fn tickets_are_out()
    ensures { TicketsAreOut }
{}

// Of what a visit does and what it is answered.

/// A visit that is admitted at its take and again at its publish, and meets no limit and no fault of the disk, is
/// answered as its script stops, or for want of memory: on a shelf that does not follow another one's journal.
pub fn a_visit_is_answered()
    ensures { AVisitIsAnswered }
{}

/// A shelf that follows another one's journal answers no visit, no sweep above its clock and no compaction, and changes by none of them
/// but that a publish spends its number.
pub fn a_follower_answers_no_visit()
    ensures { AFollowerAnswersNoVisit }
{}

/// No event makes a shelf follow another one's journal, and no other shelf answers that it follows one.
pub fn no_other_follows()
    ensures { NoOtherFollows }
{}

/// A take that is not answered with a ticket changes nothing, a publish that neither shows a page nor ends only spends
/// its number, and a sweep that is refused changes nothing; a disk's fault leaves in doubt just what was decided.
pub fn refused_is_unchanged()
    ensures { RefusedIsUnchanged }
{}

/// A start changes the book only by a page that it shows.
pub fn a_start_opens_or_leaves()
    ensures { AStartOpensOrLeaves }
{}

/// A page that is shown is admitted under its URL, at once, where it lives at all.
pub fn a_shown_page_is_admitted()
    ensures { AShownPageIsAdmitted }
{}

/// After an event that left a transaction none leaves it, and each on a page inside it is refused without effect.
pub fn closed_is_closed()
    ensures { ClosedIsClosed }
{}

/// Nothing else closes a transaction than a segment that left it.
pub fn nothing_else_closes()
    ensures { NothingElseCloses }
{}

/// Nothing else frees an instance than its finish, or a sweep when all its pages are expired or evicted.
pub fn nothing_else_frees()
    ensures { NothingElseFrees }
{}

/// What revokes a page is a forward of its instance, and it revokes every page that is there, and not its own; a revoked
/// page stays so.
pub fn a_forward_revokes()
    ensures { AForwardRevokes }
{}

/// The names that a page is inside are all different, where the fuel is too little for the count of a segment's
/// transactions to stand still.
pub fn names_stay_different()
    ensures { NamesStayDifferent }
{}

/// A page is inside no closed transaction when it is shown, those included that its own segment left.
pub fn shown_is_open()
    ensures { ShownIsOpen }
{}

/// Nothing else evicts a page than a page that is shown in its instance. An evicted page stays so as long as its instance stands, and
/// is not admitted.
pub fn nothing_else_evicts()
    ensures { NothingElseEvicts }
{}

/// Under limits of so many pages, each instance has no more that are not evicted, in every book that is reached.
pub fn at_most_pages()
    ensures { AtMostPages }
{}

/// The least used pages go; and a page that was answered just now stays, where its segment is the newest and there is room for more
/// than one page.
pub fn the_least_used_go()
    ensures first { TheLeastUsedGo }
    ensures rise { UsesRise }
{}

// Of the records that events leave.

/// The journal is asked last: a publish is decided as without one, and then its record is measured.
pub fn journal_is_last()
    ensures { JournalIsLast }
{}

/// Scripts of a book go on to name cells that they have, where each setup does that is given at a crash.
pub fn cells_stay_named()
    ensures { CellsStayNamed }
{}

/// What a publish records is made again from its record, whose script is run again.
pub fn decisions_are_remade()
    ensures { DecisionsAreRemade }
{}

/// The file of an empty book tells it, and each event leaves a book that its file tells, a compaction and a crash with another setup
/// too: of the file's records recovery makes the book, as after a crash, and passes over none.
pub fn events_are_filed()
    ensures { EventsAreFiled }
{}

/// Over a run the file of a book makes the book, as after a crash, and passes over no record.
pub fn files_suffice()
    ensures { FilesSuffice }
{}

/// Whatever records tell, the file of the book that they make has those that were not passed over, and tells the book.
pub fn records_make_filed_books()
    ensures { RecordsMakeFiledBooks }
{}

/// A file that is compacted again is the same.
pub fn compacted_twice()
    ensures { CompactedTwice }
{}

/// The compacted file of a book makes the same book, as after a crash, but for its length and file, and passes over no record.
pub fn compaction_keeps_the_book()
    ensures { CompactionKeepsTheBook }
{}

/// A file of an older format, with its records measured as they are written now, tells the same book, and is then compacted.
pub fn migration_keeps_the_book()
    ensures { MigrationKeepsTheBook }
{}

/// Whatever records tell, the book that they make of an empty one is orderly.
pub fn records_make_orderly_books()
    ensures { RecordsMakeOrderlyBooks }
{}

// Of marks.

/// Uses and evictions are read off marks that pages have, and change as the marks do.
pub fn marks_are_uses()
    ensures { MarksAreUses }
{}
