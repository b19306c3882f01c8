ghost use Rattle.std.specs.Prelude.{◌≡◌};
ghost use Rattle.http_forms.specs.declared.refused.RequestFault.TheVariants.{Memory, Refused as IsRefused};
ghost use Rattle.http_forms.specs.Reply.{refused_status, refused_word};

use crate::status::Status;
use std::alloc::{AllocError, AllocFailed};
use thiserror::Error;

/// Why bytes are refused as a request.
#[derive(Clone, Copy, Debug, PartialEq, Eq)]
pub enum Refused {
    /// The head is outside the grammar, contradicts itself, or the bytes end too early.
    BadRequest,
    /// The head is longer than 16,384 bytes, or has more than 64 field lines.
    Head,
    /// The body is sent in a transfer coding.
    Chunked,
    /// The method is neither GET nor POST.
    Method,
    /// A POST announces no length of its body.
    Length,
    /// The body is longer than 65,536 bytes.
    TooLarge,
    /// The body of a POST is no form.
    MediaType,
}

impl Refused {
    /// The status of the reply.
    pub fn status(self) -> Status
        ensures { result ≡ refused_status self }
    {
        match self {
            Refused::BadRequest => Status::BadRequest,
            Refused::Head => Status::HeaderFieldsTooLarge,
            Refused::Chunked => Status::NotImplemented,
            Refused::Method => Status::MethodNotAllowed,
            Refused::Length => Status::LengthRequired,
            Refused::TooLarge => Status::ContentTooLarge,
            Refused::MediaType => Status::UnsupportedMediaType,
        }
    }

    /// The word of the reply.
    pub fn word(self) -> &'static str
        ensures { result.now ≡ refused_word self }
    {
        match self {
            Refused::BadRequest => "bad-request",
            Refused::Head => "head",
            Refused::Chunked => "chunked",
            Refused::Method => "method",
            Refused::Length => "length",
            Refused::TooLarge => "too-large",
            Refused::MediaType => "media-type",
        }
    }
}

/// Why bytes give no request.
#[derive(Clone, Copy, Debug, PartialEq, Eq, Error)]
pub enum RequestFault {
    /// Memory ran out.
    #[error("memory ran out")]
    Memory,
    /// The request is refused.
    #[error("the request is refused: {}", .0.word())]
    Refused(Refused),
}

impl From<AllocError> for RequestFault {
    ghost from_gives = { λ _ e. e ≡ Memory };

    fn from(_e: AllocError) -> RequestFault {
        RequestFault::Memory
    }
}

impl<T: Drop> From<AllocFailed<T>> for RequestFault {
    ghost from_gives = { λ _ e. e ≡ Memory };

    fn from(_e: AllocFailed<T>) -> RequestFault {
        RequestFault::Memory
    }
}

impl From<Refused> for RequestFault {
    ghost from_gives = { λ r e. e ≡ IsRefused r };

    fn from(refused: Refused) -> RequestFault {
        RequestFault::Refused(refused)
    }
}
