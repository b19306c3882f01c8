ghost use Rattle.std.specs.Prelude.{◌≡◌};
ghost use Rattle.http_forms.specs.Reply.{status_of, status_text};

use reply_words::ReplyStatus;

/// The status of a reply.
///
/// Source: RFC 9110, section 15, and RFC 6585, section 5.
#[derive(Clone, Copy, Debug, PartialEq, Eq)]
pub enum Status {
    Ok,
    BadRequest,
    NotFound,
    MethodNotAllowed,
    Gone,
    LengthRequired,
    ContentTooLarge,
    UnsupportedMediaType,
    HeaderFieldsTooLarge,
    InternalServerError,
    NotImplemented,
    ServiceUnavailable,
}

impl Status {
    /// The number of the status and its reason.
    pub fn text(self) -> &'static str
        ensures { result.now ≡ status_text self }
    {
        match self {
            Status::Ok => "200 OK",
            Status::BadRequest => "400 Bad Request",
            Status::NotFound => "404 Not Found",
            Status::MethodNotAllowed => "405 Method Not Allowed",
            Status::Gone => "410 Gone",
            Status::LengthRequired => "411 Length Required",
            Status::ContentTooLarge => "413 Content Too Large",
            Status::UnsupportedMediaType => "415 Unsupported Media Type",
            Status::HeaderFieldsTooLarge => "431 Request Header Fields Too Large",
            Status::InternalServerError => "500 Internal Server Error",
            Status::NotImplemented => "501 Not Implemented",
            Status::ServiceUnavailable => "503 Service Unavailable",
        }
    }
}

impl From<ReplyStatus> for Status {
    ghost from_gives = { λ told status. status ≡ status_of told };

    fn from(told: ReplyStatus) -> Status {
        match told {
            ReplyStatus::NotFound => Status::NotFound,
            ReplyStatus::Gone => Status::Gone,
            ReplyStatus::InternalServerError => Status::InternalServerError,
            ReplyStatus::ServiceUnavailable => Status::ServiceUnavailable,
        }
    }
}
