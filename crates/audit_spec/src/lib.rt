//! What an audit of a journal finds, and what its Yes means, without code but for the laws: for the audit.
#![tactic(auto)]

mod word;

ghost use Rattle.audit_spec.specs.VectorsOfFiles.{WorkedRows};
ghost use Rattle.audit_spec.specs.Setups.{SetupsCanBeRun};
ghost use Rattle.audit_spec.specs.Meaning.{AYesMeansPublished, LastPagesHideTheirUrl, AYesMakesSoundBooks, AuditedJournalsGoOn, AYesIsAnOwnImage};
ghost use Rattle.audit_spec.specs.Honest.{HonestJournalsPass, AddedRecordsPass, CompactedJournalsPass};

use journal_records::records_are_exact;
pub use word::Word;

/// The file of a fresh shelf is answered yes after any run, whatever its events and their fates.
pub fn honest_journals_pass()
    ensures { HonestJournalsPass }
{}

/// A journal that is answered yes is so with what a run adds to it, whoever wrote the first records.
pub fn added_records_pass()
    ensures { AddedRecordsPass }
{
    records_are_exact();
}

/// What is copied of a file that is answered yes, or written anew in the newest format, is answered yes too.
pub fn compacted_journals_pass()
    ensures { CompactedJournalsPass }
{
    records_are_exact();
}

/// A yes means that each change was published for an admitted request, on the book of the records before it.
pub fn a_yes_means_published()
    ensures { AYesMeansPublished }
{
    records_are_exact();
}

/// What a segment comes to that ends or finishes is the same under each nonce.
pub fn last_pages_hide_their_url()
    ensures { LastPagesHideTheirUrl }
{}

/// The book that an audited file makes is sound, and each page in it has the state of its chain.
pub fn a_yes_makes_sound_books()
    ensures { AYesMakesSoundBooks }
{
    records_are_exact();
}

/// A shelf that is opened on an audited file goes on as one on a file of its own.
pub fn audited_journals_go_on()
    ensures { AuditedJournalsGoOn }
{
    records_are_exact();
}

/// The states of an audited file are those of its pages' chains, for whichever shelf it is read.
pub fn a_yes_is_an_own_image()
    ensures { AYesIsAnOwnImage }
{}

/// Each setup that a journal tells can be run, and no name stands twice in it.
pub fn setups_can_be_run()
    ensures { SetupsCanBeRun }
{}

/// A file of two pages and a last one is answered yes, and no where a state tells another number than the one that was answered.
pub fn worked_rows()
    ensures { WorkedRows }
{}
