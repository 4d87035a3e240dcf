// The script as it comes: in chunks, and its lines out of them. No contract here says what is read.
// Kept: buffers with a count, since the program has no heap.
use script::{Fault, append, zeros};
use std::io::{self, Read};

// What one read takes, at most; the next byte of it, and how many it has.
#[derive(Drop)]
pub struct Chunk {
    bytes: [u8; 65536],
    at: usize,
    got: usize,
}

impl Chunk {
    pub(crate) fn new() -> Chunk {
        Chunk {
            bytes: zeros(),
            at: 0,
            got: 0,
        }
    }

    // The next chunk, once all of this one has gone.
    pub(crate) fn refill<R: Read>(&mut self, from: &mut R) -> io::Result<()> {
        if self.got <= self.at {
            self.got = from.read(&mut self.bytes)?;
            self.at = 0;
        }
        Ok(())
    }

    // What is left of it: nothing at the script's end.
    pub(crate) fn rest(&self) -> &[u8] {
        self.bytes.get(self.at..self.got).unwrap_or(&[])
    }

    pub(crate) fn pass(&mut self, n: usize) {
        self.at = self.at.saturating_add(n);
    }
}

// What has come of a line: a part, all of it, or all of the last line.
#[derive(Clone, Copy)]
pub enum Came {
    Part,
    Whole,
    Last,
}

// The line that is read, and how many bytes of it have come: none where they are more than it holds.
#[derive(Drop)]
pub struct Text {
    bytes: [u8; 4096],
    filled: Option<usize>,
    pub came: Came,
}

// More of a line that has so many bytes, if it holds them.
fn append_to(line: &mut [u8], filled: Option<usize>, part: &[u8]) -> Option<usize> {
    append(line, filled?, part)
}

// The bytes before a comment.
fn uncommented(text: &[u8]) -> &[u8] {
    match text.iter().position(|x| *x == b'#') {
        Some(n) => &text[..n],
        None => text,
    }
}

impl Text {
    pub(crate) fn new() -> Text {
        Text {
            bytes: zeros(),
            filled: Some(0),
            came: Came::Part,
        }
    }

    // Once it is whole.
    pub(crate) fn read(&self) -> Result<&[u8], Fault> {
        let n = self.filled.ok_or(Fault::LineTooLong)?;
        let line = self.bytes.get(..n).ok_or(Fault::LineTooLong)?;
        Ok(uncommented(line))
    }

    // How many bytes have come of the line that is being read.
    fn begun(&self) -> Option<usize> {
        match self.came {
            Came::Part => self.filled,
            _ => Some(0),
        }
    }

    // The script has ended; its last line may lack a line end.
    fn end(&mut self) -> usize {
        self.filled = self.begun();
        self.came = Came::Last;
        0
    }

    // More of the line, up to its end; how many bytes that takes.
    pub(crate) fn take(&mut self, rest: &[u8]) -> usize {
        if rest.is_empty() {
            return self.end();
        }
        let filled = self.begun();
        match rest.iter().position(|x| *x == b'\n') {
            Some(n) => {
                self.filled = append_to(&mut self.bytes, filled, &rest[..n]);
                self.came = Came::Whole;
                n + 1
            }
            None => {
                self.filled = append_to(&mut self.bytes, filled, rest);
                self.came = Came::Part;
                rest.len()
            }
        }
    }
}
