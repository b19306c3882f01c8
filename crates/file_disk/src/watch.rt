// What is read of a journal when it is opened or audited, as the standard error tells it: how far it is, each second, and at its
// end how many records there were and how long it took; and how long it took to write another file in its place. It looks at the
// calls of a file alone, and changes nothing of what they give.
ghost use Rattle.std.specs.Prelude.{◌≡◌, true, slice_get};
ghost use Rattle.file_disk.specs.Watches.{is_byte, is_page, is_start, one_more, behind_cut, behind_length, tells_records};

use std::time::{Clock, Instant};

// A header, a gate and a length have at most so many bytes, and each record has more.
const MOST_FRAME: usize = 8;

// A gate that is open holds this.
const OPEN: u8 = 1;

// The first record of a journal is written here, after the header and a gate.
const FIRST_RECORD: u64 = 9;

/// How many records were read, and of how many pages and starts they tell.
#[derive(Clone, Copy, Debug, PartialEq, Eq)]
pub struct Counts {
    pub records: u64,
    pub pages: u64,
    pub starts: u64,
}

// Whether this byte stands at a place.
fn holds(bytes: &[u8], place: usize, byte: u8) -> bool
    ensures { result ≡ is_byte byte (slice_get bytes.now place) }
{
    match bytes.get(place) {
        Some(there) => *there == byte,
        None => false,
    }
}

// Whether a record tells of a page that was shown: its first byte is its kind.
fn is_page(body: &[u8]) -> bool
    ensures { result ≡ is_page body.now }
{
    holds(body, 0, 2)
}

// Whether it tells besides that the page was a start's: so does a byte after two numbers of eight bytes.
fn is_start(body: &[u8]) -> bool
    ensures { result ≡ is_start body.now }
{
    is_page(body) && holds(body, 17, 0)
}

impl Counts {
    const NONE: Counts = Counts {
        records: 0,
        pages: 0,
        starts: 0,
    };

    // One record more, with this body.
    fn count(&mut self, body: &[u8])
        ensures records { self.new.records ≡ one_more true self.old.records }
        ensures pages { self.new.pages ≡ one_more (is_page body.now) self.old.pages }
        ensures starts { self.new.starts ≡ one_more (is_start body.now) self.old.starts }
    {
        self.records = self.records.saturating_add(1);
        if is_page(body) {
            self.pages = self.pages.saturating_add(1);
        }
        if is_start(body) {
            self.starts = self.starts.saturating_add(1);
        }
    }
}

/// What is done with a file.
#[derive(Clone, Copy, Debug, PartialEq, Eq)]
pub enum Stage {
    /// It is as it was found. Who reads its records now audits it.
    Audit,
    /// Its records were audited.
    Audited,
    /// What stands after its records was cut, and these are read: its journal is opened.
    Opening,
    /// The journal is open, and nothing more is told.
    Open,
    /// It was cut to nothing, and is written anew.
    Rewriting,
}

impl Stage {
    // After a cut that leaves so many bytes. An opening cuts a file before it reads its records, and an audit never does.
    fn behind_cut(self, len: u64) -> Stage
        ensures { result ≡ behind_cut len self }
    {
        if len == 0 {
            return Stage::Rewriting;
        }
        match self {
            Stage::Audit => Stage::Opening,
            Stage::Audited => Stage::Opening,
            Stage::Opening => Stage::Opening,
            Stage::Open => Stage::Open,
            Stage::Rewriting => Stage::Rewriting,
        }
    }

    // After a question for the length, with which all reading begins: a file that was audited is as it was found.
    fn behind_length(self) -> Stage
        ensures { result ≡ behind_length self }
    {
        match self {
            Stage::Audited => Stage::Audit,
            Stage::Audit => Stage::Audit,
            Stage::Opening => Stage::Opening,
            Stage::Open => Stage::Open,
            Stage::Rewriting => Stage::Rewriting,
        }
    }

    // Whether records are told of.
    fn tells_records(self) -> bool
        ensures { result ≡ tells_records self }
    {
        match self {
            Stage::Audit => true,
            Stage::Opening => true,
            Stage::Audited => false,
            Stage::Open => false,
            Stage::Rewriting => false,
        }
    }
}

/// Tells of a file with a journal, when that is audited, opened or written anew.
#[derive(Drop)]
pub struct Watch<'r, R> {
    rt: &'r R,
    // The path of the file.
    path: String,
    // When it was taken, cut to nothing, or looked at again after an audit; none where the clock could not be read, and then no
    // time is told.
    since: Option<Instant>,
    // How many bytes it has.
    length: u64,
    // How many seconds were told of.
    seconds: u64,
    counts: Counts,
    stage: Stage,
    // Whether the length of a body of one byte was read last: what is read next may be that body, and is no mark then.
    is_short: bool,
}

impl<'r, R: Clock + Eprint> Watch<'r, R> {
    /// Nothing was read yet of the file at this path.
    pub fn new(rt: &'r R, path: String) -> Watch<'r, R> {
        Watch {
            rt,
            path,
            since: Instant::now(rt).ok(),
            length: 0,
            seconds: 0,
            counts: Counts::NONE,
            stage: Stage::Audit,
            is_short: false,
        }
    }

    // How many milliseconds have gone by.
    fn elapsed(&self) -> Option<u64> {
        let since = self.since?;
        let time = since.elapsed(self.rt).ok()?;
        u64::try_from(time.as_millis()).ok()
    }

    // The reading begins.
    fn begin(&mut self) {
        self.since = Instant::now(self.rt).ok();
        self.seconds = 0;
        self.counts = Counts::NONE;
    }

    /// The file has so many bytes.
    pub fn measured(&mut self, length: u64) {
        self.length = length;
        if self.stage == Stage::Audited {
            self.begin();
        }
        self.stage = self.stage.behind_length();
    }

    // What is done with records.
    fn deed(&self) -> &'static str {
        match self.stage {
            Stage::Audit => "audited",
            _ => "read",
        }
    }

    // Tells how many records there were.
    fn tell_records(&self) {
        let millis = self.elapsed().unwrap_or(0);
        let path = self.path.as_str();
        let deed = self.deed();
        let Counts {
            records,
            pages,
            starts,
        } = self.counts;
        let _ = eprintln!(self.rt;
            "hovgyelit: {path}: {records} records, of {pages} pages and {starts} instances, {deed} in {millis} ms"
        );
    }

    // Tells that the journal is a new one.
    fn tell_new(&self) {
        let path = self.path.as_str();
        let _ = eprintln!(self.rt; "hovgyelit: {path}: a new journal");
    }

    // Tells how long it took to write the file anew.
    fn tell_rewritten(&self) {
        let millis = self.elapsed().unwrap_or(0);
        let path = self.path.as_str();
        let length = self.length;
        let _ = eprintln!(self.rt;
            "hovgyelit: {path}: written anew, {length} bytes in {millis} ms"
        );
    }

    // Tells how far it is.
    fn tell_progress(&self, place: u64) {
        let path = self.path.as_str();
        let deed = self.deed();
        let records = self.counts.records;
        let length = self.length;
        let _ = eprintln!(self.rt;
            "hovgyelit: {path}: {records} records {deed}, up to byte {place} of {length}"
        );
    }

    // The records have ended.
    fn end(&mut self) {
        self.tell_records();
        self.stage = match self.stage {
            Stage::Audit => Stage::Audited,
            _ => Stage::Open,
        };
    }

    /// These bytes were read at this place. The records end at the first gate after one that is not open.
    pub fn saw(&mut self, place: u64, bytes: &[u8]) {
        let is_body = self.is_short;
        self.is_short = matches!(bytes, [1, 0, 0, 0]);
        if !self.stage.tells_records() {
            return;
        }
        if let [gate] = bytes {
            if *gate != OPEN && !is_body && self.counts.records > 0 {
                self.end();
                return;
            }
        }
        if bytes.len() > MOST_FRAME {
            self.counts.count(bytes);
        }
        let seconds = self.elapsed().unwrap_or(0) / 1_000;
        if seconds > self.seconds && self.counts.records > 0 {
            self.seconds = seconds;
            self.tell_progress(place);
        }
    }

    /// So many bytes were written at this place. A journal whose first record is written is a new one.
    pub fn wrote(&mut self, place: u64, count: usize) {
        if self.stage == Stage::Rewriting {
            self.length = self.length.saturating_add(count as u64);
        } else if self.stage.tells_records() && place == FIRST_RECORD {
            self.stage = Stage::Open;
            self.tell_new();
        }
    }

    /// The file was cut to so many bytes. One that has none is to be written anew.
    pub fn was_cut(&mut self, len: u64) {
        self.stage = self.stage.behind_cut(len);
        if self.stage == Stage::Rewriting {
            self.begin();
            self.length = 0;
        }
    }

    /// What was written is on the device.
    pub fn synced(&mut self) {
        if self.stage == Stage::Rewriting {
            self.stage = Stage::Open;
            self.tell_rewritten();
        }
    }
}
