use page_names::{Target, parse_target};
use script_value::Reply;
use script_value::pieces::{cut_at, number};
use std::alloc::{AllocError, Global};

/// A visit: what it asked for, and what it was told.
#[derive(Drop)]
pub struct Note {
    /// The round in which it was made; each begins after the end of the one before it.
    pub round: u64,
    /// The place among the notes of the visit that was shown the page that this one answers; none of a start.
    pub behind: Option<usize>,
    pub target: Target,
    /// The query that its answer was made of.
    pub query: String,
    pub reply: Reply,
}

impl Note {
    /// A copy, equal to its source.
    pub fn try_clone(&self, alloc: Global) -> Result<Note, AllocError> {
        Ok(Note {
            round: self.round,
            behind: self.behind,
            target: self.target,
            query: self.query.clone()?,
            reply: self.reply.try_clone(alloc)?,
        })
    }

    /// The URL of the page that it was shown, where that waits for an answer.
    pub fn url(&self) -> Option<&[u8]> {
        match &self.reply {
            Reply::Page { bytes: _, url } => Some(url.as_slice()),
            _ => None,
        }
    }

    /// What it was shown, and nothing where that is no page.
    pub fn page(&self) -> &[u8] {
        match &self.reply {
            Reply::Page { bytes, url: _ } => bytes.as_slice(),
            Reply::Ended(page) => page.as_slice(),
            _ => &[],
        }
    }

    /// The number that its page begins with.
    pub fn count(&self) -> Option<u64> {
        let (_, text) = cut_at(b'>', self.page())?;
        let (digits, _) = cut_at(b' ', text)?;
        number(digits)
    }
}

/// What a visit asks for.
#[derive(Clone, Copy)]
pub struct Asked {
    /// The place among the notes of the visit that was shown the page; none of a start.
    pub behind: Option<usize>,
    pub target: Target,
}

/// What the next visit after the note of this place asks for: the page that it was shown, or once more what it asked for.
pub fn next_behind(notes: &[Note], place: usize) -> Option<Asked> {
    let note = notes.get(place)?;
    match note.url() {
        Some(url) => Some(Asked {
            behind: Some(place),
            target: parse_target(url)?,
        }),
        None => Some(Asked {
            behind: note.behind,
            target: note.target,
        }),
    }
}
