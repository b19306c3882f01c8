use crate::after::{After, Show};
use crate::instance::KeptInstance;
use crate::numbered::Numbered;
use crate::page::KeptPage;
use journal_records::{EndedRecord, FinishRecord, PageRecord};
use kept_states::Suspended;
use script_value::TxName;

/// A start showed a page.
#[derive(Drop)]
pub struct Opening {
    pub record: PageRecord,
    /// The page, whose number is also that of its instance.
    pub page: Numbered<KeptPage>,
    /// The state of the page, for its record.
    pub state: Suspended,
    /// The instance after the segment, with room for the page.
    pub instance: KeptInstance,
}

/// An answer to a page showed a page.
#[derive(Drop)]
pub struct Extension {
    /// The instance whose page was answered; the record tells the page.
    pub instance: u64,
    pub record: PageRecord,
    /// The state of the page, for its record.
    pub state: Suspended,
    /// The page, and what its segment makes of the instance.
    pub show: Show,
}

/// An answer to a page ended with a last page.
#[derive(Drop)]
pub struct Ending {
    pub record: EndedRecord,
    /// The transactions that were open where it ended.
    pub inside: Vec<TxName>,
    /// What it leaves of the instance.
    pub after: After,
}

/// An answer to a page freed its instance.
#[derive(Drop)]
pub struct Finish {
    pub record: FinishRecord,
    /// The transactions that were open where it stopped.
    pub inside: Vec<TxName>,
}

/// What a visit changes of the book, as a record of it says, and beside it what the book takes over.
#[derive(Drop)]
pub enum Change {
    Opens(Opening),
    Extends(Extension),
    Ends(Ending),
    Finishes(Finish),
}
