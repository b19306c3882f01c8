ghost use Rattle.std.specs.Prelude.{◌≡◌, ◌+◌, ◌<◌, ◌≤◌, List, length, map, IfOk, OnOk, IsUtf8, Ok, Err};
ghost use Rattle.script_value.specs.Views.{meaning};
ghost use Rattle.script_value.specs.Val.{Val};
ghost use Rattle.sexp_reader.specs.Limits.{most_bytes};
ghost use Rattle.sexp_reader.specs.Read as spec;
ghost use Rattle.sexp_reader.specs.Spells.{Spells};
ghost use Rattle.sexp_reader.specs.Views.{Reads, Becomes, Advances, state_of, stack_of, with_datum, closed_at, data_at_end, piece_at, innermost_mark, past_mark};

use crate::classes::{Class, Delimiter, Mark, class_of, name_of, whole_mark};
use crate::fault::{ReadFault, ReadKind, fault};
use crate::scan::{after_gap, text_at, token_len};
use crate::words::word_at;
use script_value::{Items, Str, Value};
use std::alloc::{AllocError, Global};
use std::mem;

/// How many lists and marks may be open.
const MOST_LEVELS: usize = 128;

/// What is open, with its place.
#[derive(Drop)]
pub enum Level {
    /// A list, and the data before it on the level around it.
    Opened(Delimiter, u64, Vec<Value>),
    /// A mark.
    Marked(Mark, u64),
}

/// What was read so far.
#[derive(Drop)]
pub struct Reader {
    /// The data on the innermost level.
    pub items: Vec<Value>,
    /// What is open, the innermost last.
    pub levels: Vec<Level>,
}

// The list that a mark before a datum stands for.
fn marked_list(alloc: Global, mark: Mark, value: Value) -> Result<Value, AllocError>
    ensures { IfOk result (λ v. meaning v ≡ spec.marked_list mark (meaning value)) }
{
    let name = String::from_str(alloc, name_of(mark))?;
    let mut items = Vec::new(alloc);
    items.push(Value::Symbol(Str::new(name)))?;
    items.push(value)?;
    Ok(Value::List(Items::from_vec(items)))
}

impl Reader {
    fn new(alloc: Global) -> Reader
        ensures { state_of result ≡ spec.start }
    {
        Reader {
            items: Vec::new(alloc),
            levels: Vec::new(alloc),
        }
    }

    // Takes off the innermost level where it is a mark, and says which.
    fn end_mark(&mut self) -> Result<Option<Mark>, AllocError>
        ensures marked { IfOk result (λ mark. mark ≡ innermost_mark (stack_of self.old.levels.items)) }
        ensures levels { OnOk result (stack_of self.new.levels.items ≡ past_mark (stack_of self.old.levels.items)) }
        ensures items { OnOk result (self.new.items ≡ self.old.items) }
    {
        match self.levels.pop() {
            None => Ok(None),
            Some(Level::Marked(mark, _)) => Ok(Some(mark)),
            Some(level) => {
                self.levels.push(level)?;
                Ok(None)
            }
        }
    }

    // One more datum, which ends each mark right before it.
    fn put(&mut self, alloc: Global, value: Value) -> Result<(), ReadFault>
        ensures { Becomes self.new result (Ok (with_datum (meaning value) (state_of self.old))) }
    {
        let mut value = value;
        while let Some(mark) = self.end_mark()? {
            value = marked_list(alloc, mark, value)?;
        }
        self.items.push(value)?;
        Ok(())
    }

    // A parenthesis or bracket at this place opens a list.
    fn open_list(
        &mut self,
        alloc: Global,
        delimiter: Delimiter,
        place: u64,
    ) -> Result<(), ReadFault>
        ensures { Becomes self.new result (spec.open_list delimiter place (state_of self.old)) }
    {
        if self.levels.len() >= MOST_LEVELS {
            return Err(fault(place, ReadKind::Deep));
        }
        let before = mem::replace(&mut self.items, Vec::new(alloc));
        self.levels.push(Level::Opened(delimiter, place, before))?;
        Ok(())
    }

    // A mark at this place.
    fn open_mark(&mut self, mark: Mark, place: u64) -> Result<(), ReadFault>
        ensures { Becomes self.new result (spec.open_mark mark place (state_of self.old)) }
    {
        if self.levels.len() >= MOST_LEVELS {
            return Err(fault(place, ReadKind::Deep));
        }
        self.levels.push(Level::Marked(mark, place))?;
        Ok(())
    }

    // A parenthesis or bracket at this place closes the innermost list.
    fn close_list(
        &mut self,
        alloc: Global,
        delimiter: Delimiter,
        place: u64,
    ) -> Result<(), ReadFault>
        ensures { Becomes self.new result (closed_at delimiter place (state_of self.old)) }
    {
        match self.levels.pop() {
            None => Err(fault(place, ReadKind::Unopened)),
            Some(Level::Marked(_, at)) => Err(fault(at, ReadKind::Token)),
            Some(Level::Opened(opening, _, before)) => {
                if delimiter != opening {
                    return Err(fault(place, ReadKind::Mismatch));
                }
                let items = mem::replace(&mut self.items, before);
                self.put(alloc, Value::List(Items::from_vec(items)))
            }
        }
    }

    // A mark, of which the first byte and what stands after that are given; what follows it.
    fn take_mark<'a>(
        &mut self,
        mark: Mark,
        place: u64,
        bytes: &'a [u8],
    ) -> Result<&'a [u8], ReadFault>
        ensures found { Advances self.new result (spec.take_mark mark place bytes.now (state_of self.old)) }
        ensures shorter { IfOk result (λ rest. length rest.now ≤ length bytes.now) }
    {
        let (mark, rest) = whole_mark(mark, bytes);
        self.open_mark(mark, place)?;
        Ok(rest)
    }

    // A text, of which what stands after its quote is given; what follows it.
    fn take_text<'a>(
        &mut self,
        alloc: Global,
        place: u64,
        bytes: &'a [u8],
    ) -> Result<&'a [u8], ReadFault>
        requires { IsUtf8 bytes.now }
        ensures found { Advances self.new result (spec.take_text place bytes.now (state_of self.old)) }
        ensures shorter { IfOk result (λ rest. length rest.now ≤ length bytes.now) }
    {
        let (text, rest) = text_at(alloc, place, bytes)?;
        self.put(alloc, Value::Text(text))?;
        Ok(rest)
    }

    // A token; what follows it.
    fn take_token<'a>(
        &mut self,
        alloc: Global,
        place: u64,
        bytes: &'a [u8],
    ) -> Result<&'a [u8], ReadFault>
        ensures found { Advances self.new result (spec.take_token place bytes.now (state_of self.old)) }
        ensures shorter { IfOk result (λ rest. length rest.now + spec.token_len bytes.now ≡ length bytes.now) }
    {
        let (token, rest) = bytes.split_at(token_len(bytes));
        let value = word_at(alloc, place, token)?;
        self.put(alloc, value)?;
        Ok(rest)
    }

    // The piece that stands here; what follows it.
    fn take_piece<'a>(
        &mut self,
        alloc: Global,
        place: u64,
        bytes: &'a [u8],
    ) -> Result<&'a [u8], ReadFault>
        requires { IsUtf8 bytes.now }
        ensures found { Advances self.new result (piece_at place bytes.now (state_of self.old)) }
        ensures shorter { IfOk result (λ rest. length rest.now < length bytes.now) }
    {
        let [byte, tail @ ..] = bytes else {
            return Err(fault(place, ReadKind::Unclosed));
        };
        match class_of(*byte) {
            Class::Opening(delimiter) => {
                self.open_list(alloc, delimiter, place)?;
                Ok(tail)
            }
            Class::Closing(delimiter) => {
                self.close_list(alloc, delimiter, place)?;
                Ok(tail)
            }
            Class::Marking(mark) => self.take_mark(mark, place, tail),
            Class::DoubleQuote => self.take_text(alloc, place, tail),
            Class::Plain => self.take_token(alloc, place, bytes),
            Class::Blank | Class::Comment => Err(fault(place, ReadKind::Token)),
        }
    }

    // The data of the text at its end.
    fn finish(mut self) -> Result<Vec<Value>, ReadFault>
        ensures { Reads result (data_at_end (state_of self)) }
    {
        match self.levels.pop() {
            None => Ok(self.items),
            Some(Level::Opened(_, at, _) | Level::Marked(_, at)) => Err(fault(
                at,
                ReadKind::Unclosed,
            )),
        }
    }
}

// The data of a text that is UTF-8.
fn scan(alloc: Global, text: &[u8]) -> Result<Vec<Value>, ReadFault>
    requires { IsUtf8 text.now }
    ensures { Reads result (spec.scan text.now) }
{
    let mut reader = Reader::new(alloc);
    let mut rest = after_gap(text);
    while !rest.is_empty() {
        let place = text.len() - rest.len();
        rest = after_gap(reader.take_piece(alloc, place as u64, rest)?);
    }
    reader.finish()
}

/// How many bytes a text may have.
const MOST_BYTES: usize = 65_536;

// The data of a text, or its first fault.
fn read_text(alloc: Global, text: &[u8]) -> Result<Vec<Value>, ReadFault>
    ensures value { Reads result (spec.read text.now) }
    ensures memory { result ≡ Err ReadFault.Memory → (length text.now ≤ most_bytes) × IsUtf8 text.now }
{
    if text.len() > MOST_BYTES {
        return Err(fault(MOST_BYTES as u64, ReadKind::Long));
    }
    match str::from_utf8(text) {
        Ok(_) => scan(alloc, text),
        Err(error) => Err(fault(error.valid_up_to() as u64, ReadKind::Utf8)),
    }
}

/// The data that a text spells, or its first fault.
pub fn read_all(alloc: Global, text: &[u8]) -> Result<Vec<Value>, ReadFault>
    // The answer is that of reading, unless memory ran out.
    ensures value { Reads result (spec.read text.now) }
    // What is read is spelled so.
    ensures spelled { IfOk result (λ vs. Spells text.now (map meaning vs.items)) }
    // What is spelled so is read, unless memory ran out.
    ensures found { (wanted : List Val) → Spells text.now wanted → Reads result (Ok wanted) }
    // A text that is too long, or is no UTF-8, is told so, whatever memory there is.
    ensures memory { result ≡ Err ReadFault.Memory → (length text.now ≤ most_bytes) × IsUtf8 text.now }
{
    read_text(alloc, text)
}
