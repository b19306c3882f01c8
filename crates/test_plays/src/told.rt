use std::alloc::{AllocError, Global};

/// Bytes that are put together. Want of memory is kept until all of them are asked for.
#[derive(Drop)]
pub struct Told {
    bytes: Vec<u8>,
    short: bool,
}

impl Told {
    /// Nothing yet.
    pub fn new(alloc: Global) -> Told {
        Told {
            bytes: Vec::new(alloc),
            short: false,
        }
    }

    /// These bytes.
    pub fn add(&mut self, bytes: &[u8]) {
        if self.bytes.extend_from_slice(bytes).is_err() {
            self.short = true;
        }
    }

    /// A text, if there was memory to make it.
    pub fn put(&mut self, made: Result<String, AllocError>) {
        match made {
            Ok(text) => self.add(text.as_bytes()),
            Err(_) => self.short = true,
        }
    }

    /// Bytes, if there was memory to make them.
    pub fn put_bytes(&mut self, made: Result<Vec<u8>, AllocError>) {
        match made {
            Ok(bytes) => self.add(bytes.as_slice()),
            Err(_) => self.short = true,
        }
    }

    /// All of them.
    pub fn all(self) -> Result<Vec<u8>, AllocError> {
        if self.short {
            Err(AllocError)
        } else {
            Ok(self.bytes)
        }
    }
}
