use std::alloc::{AllocError, Global};

/// An answer that is put together. Want of memory is kept until all of it is asked for.
#[derive(Drop)]
pub struct Told {
    alloc: Global,
    text: String,
    short: bool,
}

impl Told {
    /// Nothing yet.
    pub fn new(alloc: Global) -> Told {
        Told {
            alloc,
            text: String::new(alloc),
            short: false,
        }
    }

    /// One more piece.
    pub fn add(&mut self, piece: &str) {
        if self.text.push_str(piece).is_err() {
            self.short = true;
        }
    }

    /// One more piece, if there was memory to make it.
    pub fn put(&mut self, made: Result<String, AllocError>) {
        match made {
            Ok(piece) => self.add(piece.as_str()),
            Err(_) => self.short = true,
        }
    }

    /// A number.
    pub fn number(&mut self, number: u64) {
        self.put(format!(in self.alloc; "{number}"));
    }

    /// A word, and a number after it.
    pub fn one(&mut self, word: &str, number: u32) {
        self.add(word);
        self.add(" ");
        self.number(number as u64);
    }

    /// A word, and two numbers after it.
    pub fn two(&mut self, word: &str, first: u32, second: u32) {
        self.one(word, first);
        self.one("", second);
    }

    /// A word, and numbers after it.
    pub fn line(&mut self, word: &str, numbers: &[u32]) {
        self.add(word);
        for number in numbers {
            self.add(" ");
            self.number(*number as u64);
        }
    }

    /// All of it.
    pub fn all(self) -> Result<String, AllocError> {
        if self.short {
            Err(AllocError)
        } else {
            Ok(self.text)
        }
    }
}
