use crate::racks::numbers_of;
use crate::steps::unfolded;
use crate::told::Told;
use std::alloc::{AllocError, Global};
use web_outside::{ListDoor, ListPorch, ListSeeds, SetClock, TextLink, TextSink, TextSource};

// The most that a link and an output take, where no line says less.
const ROOM: usize = 2_000_000;

// The greatest piece of a read, where no line says another for links.
const PIECE: usize = 4_096;

// What a link sends, which of its reads fail, the first being 0, and how many bytes it takes.
#[derive(Drop)]
struct Sending {
    text: String,
    reads: Vec<u64>,
    room: usize,
}

/// What comes to a run besides its disks: links to its one worker, the time, and what fails of them, of its input and of its
/// seeds. No link comes, it is the second 0, and nothing fails but where lines say so.
#[derive(Drop)]
pub struct Street {
    links: Vec<Sending>,
    clock: u64,
    // The reads of the input that fail, the first being 0.
    reads: Vec<u64>,
    // The draws of nonces that fail, the first being 0.
    draws: Vec<u64>,
    // The calls for the next link that fail, the first being 0.
    nexts: Vec<u64>,
    // The greatest piece of a read of a link.
    piece: usize,
    room: usize,
}

/// What a command reads and writes, and where its links, its nonces and its time come from. The clock stands still.
#[derive(Drop)]
pub struct Streams {
    pub source: TextSource,
    pub sink: TextSink,
    pub door: ListDoor,
    pub seeds: ListSeeds,
    pub clock: SetClock,
}

// What is sent for a line, in which `↵` stands for the end of a line of a request.
fn add_sent(sent: &mut String, alloc: Global, line: &str) -> Result<(), AllocError> {
    let line = unfolded(alloc, line)?;
    for character in line.as_str().chars() {
        if character == '↵' {
            sent.push_str("\r\n")?;
        } else {
            sent.push(character)?;
        }
    }
    Ok(())
}

impl Sending {
    fn new(alloc: Global) -> Sending {
        Sending {
            text: String::new(alloc),
            reads: Vec::new(alloc),
            room: ROOM,
        }
    }

    // Takes a line that says more of it.
    fn line(&mut self, alloc: Global, word: &str, rest: &str) -> Result<(), AllocError> {
        match word {
            "sends" => add_sent(&mut self.text, alloc, rest)?,
            "breaks" => self.reads = numbers_of(alloc, rest)?,
            "takes" => self.room = rest.parse().unwrap_or(0),
            _ => {}
        }
        Ok(())
    }

    // The link, which is read in pieces of at most so many bytes.
    fn link(&self, alloc: Global, piece: usize) -> Result<TextLink, AllocError> {
        let sent = self.text.as_bytes().to_vec(alloc)?;
        Ok(TextLink {
            input: TextSource::new(sent, self.reads.to_vec(alloc)?, piece.max(1)),
            output: TextSink::new(alloc, self.room, Vec::new(alloc))?,
        })
    }
}

// Tells what a link was told, without the bytes that begin the end of a line of a reply.
fn tell_link(told: &mut Told, alloc: Global, number: usize, link: &TextLink) {
    told.put(format!(in alloc; "link {number}:\n"));
    for byte in link.output.bytes() {
        if *byte != b'\r' {
            told.add(&[*byte]);
        }
    }
    told.add(b"\n");
}

/// Tells what the links were told that were served, one after the other.
pub fn tell_links(told: &mut Told, alloc: Global, door: &ListDoor) {
    for porch in door.closed() {
        for (number, link) in porch.served().iter().enumerate() {
            tell_link(told, alloc, number, link);
        }
    }
}

impl Street {
    /// Nothing comes, and nothing fails.
    pub fn new(alloc: Global) -> Street {
        Street {
            links: Vec::new(alloc),
            clock: 0,
            reads: Vec::new(alloc),
            draws: Vec::new(alloc),
            nexts: Vec::new(alloc),
            piece: PIECE,
            room: ROOM,
        }
    }

    /// Takes a line: `link TEXT` is one link more, which sends that, and `sends TEXT` what it sends after that, with ` x COUNT`
    /// as in a step; `breaks READ ..` and `takes COUNT` say which of its reads fail, and how many bytes it takes.
    /// `pieces COUNT` is how many bytes a read of a link gives at most, and `nexts CALL ..` which calls for the next link fail.
    /// `clock SECOND`, `unread READ ..`, `draws DRAW ..` and `room COUNT` are of the run. Any other line says nothing.
    pub fn line(&mut self, alloc: Global, word: &str, rest: &str) -> Result<(), AllocError> {
        match word {
            "link" => {
                self.links.push(Sending::new(alloc))?;
                self.link_line(alloc, "sends", rest)
            }
            "clock" => {
                self.clock = rest.parse().unwrap_or(0);
                Ok(())
            }
            "pieces" => {
                self.piece = rest.parse().unwrap_or(PIECE);
                Ok(())
            }
            "room" => {
                self.room = rest.parse().unwrap_or(0);
                Ok(())
            }
            _ => self.fault_line(alloc, word, rest),
        }
    }

    // Takes a line of what fails, or of the last link.
    fn fault_line(&mut self, alloc: Global, word: &str, rest: &str) -> Result<(), AllocError> {
        match word {
            "unread" => self.reads = numbers_of(alloc, rest)?,
            "draws" => self.draws = numbers_of(alloc, rest)?,
            "nexts" => self.nexts = numbers_of(alloc, rest)?,
            _ => self.link_line(alloc, word, rest)?,
        }
        Ok(())
    }

    // Takes a line of the last link, if there is one.
    fn link_line(&mut self, alloc: Global, word: &str, rest: &str) -> Result<(), AllocError> {
        match self.links.last_mut() {
            Some(last) => last.line(alloc, word, rest),
            None => Ok(()),
        }
    }

    fn porch(&self, alloc: Global) -> Result<ListPorch, AllocError> {
        let mut coming = Vec::new(alloc);
        for sending in &self.links {
            coming.push(sending.link(alloc, self.piece)?)?;
        }
        ListPorch::new(alloc, coming, self.nexts.to_vec(alloc)?)
    }

    // The door at which the links come in, at the port 0. Where none comes, it has no room for a worker.
    fn door(&self, alloc: Global) -> Result<ListDoor, AllocError> {
        let mut porches = Vec::new(alloc);
        if !self.links.is_empty() {
            porches.push(self.porch(alloc)?)?;
        }
        Ok(ListDoor::new(alloc, 0, porches, Vec::new(alloc)))
    }

    // The input of these bytes.
    fn source(&self, alloc: Global, input: &[u8]) -> Result<TextSource, AllocError> {
        let input = input.to_vec(alloc)?;
        Ok(TextSource::new(input, self.reads.to_vec(alloc)?, PIECE))
    }

    /// The streams of a run with this input.
    pub fn streams(&self, alloc: Global, input: &[u8]) -> Result<Streams, AllocError> {
        Ok(Streams {
            source: self.source(alloc, input)?,
            sink: TextSink::new(alloc, self.room, Vec::new(alloc))?,
            door: self.door(alloc)?,
            seeds: ListSeeds::new(self.draws.to_vec(alloc)?),
            clock: SetClock::new(self.clock),
        })
    }
}
