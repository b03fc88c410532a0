// What is told of a text, in short. The parts are written without asking whether memory is left; the whole is asked once.
use std::alloc::{AllocError, Global};

/// What is told so far.
#[derive(Drop)]
pub struct Note {
    text: Vec<u8>,
    ran_out: bool,
}

impl Note {
    pub fn new(alloc: Global) -> Note {
        Note {
            text: Vec::new(alloc),
            ran_out: false,
        }
    }

    pub fn put(&mut self, bytes: &[u8]) {
        match self.text.extend_from_slice(bytes) {
            Ok(()) => {}
            Err(_) => self.ran_out = true,
        }
    }

    /// A space, unless nothing stands before it.
    pub fn space(&mut self) {
        if !self.text.is_empty() {
            self.put(b" ");
        }
    }

    pub fn times(&mut self, bytes: &[u8], times: u32) {
        for _ in 0..times {
            self.put(bytes);
        }
    }

    pub fn number(&mut self, number: i64) {
        let mut digits = itoa::Buffer::new();
        self.put(digits.format(number).as_bytes());
    }

    pub fn count(&mut self, before: &[u8], count: u64) {
        let mut digits = itoa::Buffer::new();
        self.put(before);
        self.put(digits.format(count).as_bytes());
    }

    pub fn formatted(&mut self, text: Result<String, AllocError>) {
        match text {
            Ok(text) => self.put(text.as_bytes()),
            Err(AllocError) => self.ran_out = true,
        }
    }

    /// Memory ran out elsewhere.
    pub fn run_out(&mut self) {
        self.ran_out = true;
    }

    /// What is told, unless memory ran out.
    pub fn whole(self) -> Result<Vec<u8>, AllocError> {
        if self.ran_out {
            return Err(AllocError);
        }
        Ok(self.text)
    }
}
