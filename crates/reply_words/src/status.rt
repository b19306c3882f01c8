ghost use Rattle.std.specs.Prelude.{◌≡◌};
ghost use Rattle.reply_words.specs.Words.{status_number};

/// The status of a reply that has no page.
///
/// Source: RFC 9110, sections 15.5 and 15.6.
#[derive(Clone, Copy, Debug, PartialEq, Eq)]
pub enum ReplyStatus {
    NotFound,
    Gone,
    InternalServerError,
    ServiceUnavailable,
}

impl ReplyStatus {
    /// The number of the status.
    pub fn number(self) -> u16
        ensures { result ≡ status_number self }
    {
        match self {
            ReplyStatus::NotFound => 404,
            ReplyStatus::Gone => 410,
            ReplyStatus::InternalServerError => 500,
            ReplyStatus::ServiceUnavailable => 503,
        }
    }
}
