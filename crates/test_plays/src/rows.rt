use crate::outside::{Outcome, ran};
use crate::plans::Plan;
use crate::steps::unfolded;
use crate::told::Told;
use crate::transcript::transcript;
use std::alloc::{AllocError, Global};
use std::mem;
use std::sync::Wait;
use std::thread::Threads;

// A script of a name.
#[derive(Drop)]
struct Script {
    name: String,
    text: String,
}

// What the lines up to the next `.` are.
#[derive(Drop)]
enum Block {
    Between,
    Script(Script),
    Steps { head: String, steps: String },
    Input { words: String, text: String },
}

/// The scripts so far, how the next run is treated, and the block that is read.
#[derive(Drop)]
pub struct Rows {
    scripts: Vec<Script>,
    plan: Plan,
    block: Block,
}

// A text with one more line.
fn push_line(text: &mut String, line: &str) -> Result<(), AllocError> {
    if !text.is_empty() {
        text.push_str("\n")?;
    }
    text.push_str(line)
}

// The words of a command.
fn words_of<'a>(alloc: Global, text: &'a str) -> Result<Vec<&'a str>, AllocError> {
    let mut words = Vec::new(alloc);
    words.push("hovgyelit")?;
    for word in text.split_whitespace() {
        words.push(word)?;
    }
    Ok(words)
}

// How many shelves these options ask for.
fn shelves_of(options: &str) -> usize {
    let (_, asked) = options.split_once("--shelves ").unwrap_or(("", ""));
    let (count, _) = asked.split_once(' ').unwrap_or((asked, ""));
    count.parse().unwrap_or(1)
}

// What is told of a command with these words and this input.
fn told_of<R: Threads + Wait + Sync>(
    rt: &R,
    alloc: Global,
    words: &str,
    input: &str,
    plan: &Plan,
) -> Result<Vec<u8>, AllocError> {
    let words = words_of(alloc, words)?;
    let Outcome { mut written, end } = ran(rt, alloc, &words, input.as_bytes(), plan)?;
    written.extend_from_slice(&end)?;
    Ok(written)
}

// What a start of a script is answered.
fn started<R: Threads + Wait + Sync>(
    rt: &R,
    alloc: Global,
    script: &str,
    plan: &Plan,
) -> Result<Vec<u8>, AllocError> {
    let length = script.len();
    let input = format!(in alloc; "script a {length}\n{script}\nsteps\nget 0 /servlets/a\n")?;
    told_of(rt, alloc, "play", input.as_str(), plan)
}

// What is told of a run over this input: each of its steps with its replies, and the end.
fn transcribed<R: Threads + Wait + Sync>(
    rt: &R,
    alloc: Global,
    options: &str,
    input: &[u8],
    steps: &str,
    plan: &Plan,
) -> Result<Vec<u8>, AllocError> {
    let words = format!(in alloc; "play {options}")?;
    let words = words_of(alloc, words.as_str())?;
    let Outcome { written, end } = ran(rt, alloc, &words, input, plan)?;
    let mut told = Told::new(alloc);
    told.put_bytes(transcript(alloc, steps, shelves_of(options), written.as_slice()));
    told.add(&end);
    told.all()
}

// The block that begins with this word, if one does, and has this after it.
fn block_of(alloc: Global, word: &str, rest: &str) -> Result<Option<Block>, AllocError> {
    let head = String::from_str(alloc, rest)?;
    let text = String::new(alloc);
    Ok(match word {
        "script" => Some(Block::Script(Script { name: head, text })),
        "play" => Some(Block::Steps { head, steps: text }),
        "input" => Some(Block::Input { words: head, text }),
        _ => None,
    })
}

// The line of a row as it is.
fn echo(alloc: Global, line: &str) -> Result<Vec<u8>, AllocError> {
    let line = format!(in alloc; "{line}\n")?;
    Ok(line.into_bytes())
}

impl Rows {
    /// No scripts yet.
    pub fn new(alloc: Global) -> Rows {
        Rows {
            scripts: Vec::new(alloc),
            plan: Plan::new(alloc),
            block: Block::Between,
        }
    }

    // The section of the last script of a name.
    fn section(&self, alloc: Global, name: &str) -> Result<String, AllocError> {
        match self
            .scripts
            .iter()
            .rev()
            .find(|script| script.name.as_str() == name)
        {
            Some(script) => {
                let text = script.text.as_str();
                let length = text.len();
                format!(in alloc; "script {name} {length}\n{text}\n")
            }
            None => format!(in alloc; "no script {name}\n"),
        }
    }

    // The input of a run: the sections of these scripts, and the steps.
    fn input_of(&self, alloc: Global, names: &str, steps: &str) -> Result<Vec<u8>, AllocError> {
        let mut input = Told::new(alloc);
        for name in names.split_whitespace() {
            input.put(self.section(alloc, name));
        }
        input.add(b"steps\n");
        if !steps.is_empty() {
            for step in steps.split('\n') {
                input.put(unfolded(alloc, step));
                input.add(b"\n");
            }
        }
        input.all()
    }

    // The run of a command over the scripts that its head names, and steps.
    fn played<R: Threads + Wait + Sync>(
        &self,
        rt: &R,
        alloc: Global,
        head: &str,
        steps: &str,
        plan: &Plan,
    ) -> Result<Vec<u8>, AllocError> {
        let (names, options) = head.split_once(" : ").unwrap_or((head, ""));
        let input = self.input_of(alloc, names, steps)?;
        transcribed(rt, alloc, options, &input, steps, plan)
    }

    // How this run is treated; nothing is said of the next one.
    fn take_plan(&mut self, alloc: Global) -> Plan {
        mem::replace(&mut self.plan, Plan::new(alloc))
    }

    // What a block comes to.
    fn ended<R: Threads + Wait + Sync>(
        &mut self,
        rt: &R,
        alloc: Global,
    ) -> Result<Vec<u8>, AllocError> {
        match mem::replace(&mut self.block, Block::Between) {
            Block::Between => Ok(Vec::new(alloc)),
            Block::Script(script) => {
                self.scripts.push(script)?;
                Ok(Vec::new(alloc))
            }
            Block::Steps { head, steps } => {
                let plan = self.take_plan(alloc);
                self.played(rt, alloc, head.as_str(), steps.as_str(), &plan)
            }
            Block::Input { words, text } => {
                let plan = self.take_plan(alloc);
                told_of(rt, alloc, words.as_str(), text.as_str(), &plan)
            }
        }
    }

    // What is told of a line between two blocks, or of the first of one.
    fn begin<R: Threads + Wait + Sync>(
        &mut self,
        rt: &R,
        alloc: Global,
        line: &str,
    ) -> Result<Vec<u8>, AllocError> {
        let (word, rest) = line.split_once(' ').unwrap_or((line, ""));
        match word {
            "start" => return started(rt, alloc, rest, &self.take_plan(alloc)),
            "words" => return told_of(rt, alloc, rest, "", &self.take_plan(alloc)),
            _ => (),
        }
        match block_of(alloc, word, rest)? {
            Some(block) => self.block = block,
            None => self.plan.line(alloc, word, rest)?,
        }
        Ok(Vec::new(alloc))
    }

    // What is written for such a line: itself, and what is told of it.
    fn begun<R: Threads + Wait + Sync>(
        &mut self,
        rt: &R,
        alloc: Global,
        line: &str,
    ) -> Result<Vec<u8>, AllocError> {
        let mut told = Told::new(alloc);
        told.put_bytes(echo(alloc, line));
        told.put_bytes(self.begin(rt, alloc, line));
        told.all()
    }

    /// What is written for one more line.
    pub fn line<R: Threads + Wait + Sync>(
        &mut self,
        rt: &R,
        alloc: Global,
        line: &str,
    ) -> Result<Vec<u8>, AllocError> {
        if line == "." {
            return self.ended(rt, alloc);
        }
        match &mut self.block {
            Block::Between => return self.begun(rt, alloc, line),
            Block::Script(script) => push_line(&mut script.text, line)?,
            Block::Steps { steps, .. } => {
                push_line(steps, line)?;
                return Ok(Vec::new(alloc));
            }
            Block::Input { text, .. } => push_line(text, line)?,
        }
        echo(alloc, line)
    }
}
