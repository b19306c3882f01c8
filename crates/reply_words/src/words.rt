ghost use Rattle.std.specs.Prelude.{◌≡◌};
ghost use Rattle.reply_words.specs.Views.{told_of};
ghost use Rattle.reply_words.specs.Words as spec;

use crate::status::ReplyStatus;
use script_value::{Fault, Refusal, Reply};

/// What a reply says.
#[derive(Clone, Copy)]
pub enum Told<'a> {
    /// A page, which is these bytes.
    Page(&'a [u8]),
    /// No page, but this status and this word.
    Word(ReplyStatus, &'static str),
}

impl<'a> Told<'a> {
    /// What the reply says.
    pub fn of(reply: &'a Reply) -> Told<'a>
        ensures { told_of result ≡ spec.told reply.now }
    {
        match reply {
            Reply::Page { bytes, .. } => Told::Page(bytes.as_slice()),
            Reply::Finished(bytes) => Told::Page(bytes.as_slice()),
            Reply::Ended(bytes) => Told::Page(bytes.as_slice()),
            Reply::Refused(refusal) => refusal_told(*refusal),
            Reply::Fault(fault) => Told::Word(ReplyStatus::InternalServerError, fault_word(*fault)),
            Reply::Fuel(_) => Told::Word(ReplyStatus::ServiceUnavailable, "fuel"),
            Reply::ShelfFull(_) => Told::Word(ReplyStatus::ServiceUnavailable, "shelf-full"),
            Reply::Oversize(_) => Told::Word(ReplyStatus::InternalServerError, "oversize"),
            Reply::JournalFull(_) => Told::Word(ReplyStatus::ServiceUnavailable, "journal-full"),
            Reply::DiskFault(_) => Told::Word(ReplyStatus::ServiceUnavailable, "disk"),
            Reply::Down(_) => Told::Word(ReplyStatus::ServiceUnavailable, "down"),
            Reply::Following => Told::Word(ReplyStatus::ServiceUnavailable, "following"),
            Reply::Worn => Told::Word(ReplyStatus::ServiceUnavailable, "worn"),
            Reply::Memory => Told::Word(ReplyStatus::ServiceUnavailable, "memory"),
        }
    }
}

fn refusal_told(refusal: Refusal) -> Told<'static>
    ensures { told_of result ≡ spec.refusal_told refusal }
{
    match refusal {
        Refusal::Unknown => Told::Word(ReplyStatus::NotFound, "unknown"),
        Refusal::Revoked => Told::Word(ReplyStatus::Gone, "revoked"),
        Refusal::Closed(_) => Told::Word(ReplyStatus::Gone, "closed"),
        Refusal::Evicted(_) => Told::Word(ReplyStatus::Gone, "evicted"),
        Refusal::Expired(_) => Told::Word(ReplyStatus::Gone, "expired"),
    }
}

fn fault_word(fault: Fault) -> &'static str
    ensures { result.now ≡ spec.fault_word fault }
{
    match fault {
        Fault::WrongType => "type",
        Fault::Overflow => "overflow",
        Fault::Zero => "zero",
        Fault::Bounds => "bounds",
        Fault::Deep => "deep",
        Fault::Binding => "binding",
        Fault::NotPage => "page",
    }
}
