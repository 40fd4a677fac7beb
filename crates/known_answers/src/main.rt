// Runs the vectors of the file that the first argument names, each under three masks and strips, and prints how many pass and how many fail.
// docs/KNOWN-ANSWERS.md has the form of the file. What this prints is tested; proved is that it ends and never reaches outside a buffer.
#![tactic(auto)]

mod generator;
mod vector;

use arrayvec::ArrayVec;
use reading::Program;
use std::io::{Read, Write};
use std::{fmt, io};

// A line holds at most 132 characters and a carriage return; one byte more shows that it is too long.
const LINE: usize = 134;

// A file is read in at most so many chunks of so many bytes.
const CHUNKS: usize = 256;

const CHUNK: usize = 65536;

// A count stays where it is once it is so high.
const MOST: u64 = 1000000000;

// How many vectors passed, and how many lines failed.
#[derive(Clone, Copy, Default)]
struct Counts {
    passed: u64,
    failed: u64,
}

impl Counts {
    // One line more.
    fn add(&mut self, passes: bool) {
        let count = if passes {
            &mut self.passed
        } else {
            &mut self.failed
        };
        *count = count.saturating_add(1).min(MOST);
    }

    // One carriage return before the newline is no part of the line. Every line that is not passed over has to be a vector that passes.
    fn judge(&mut self, line: &[u8]) {
        let line = line.strip_suffix(b"\r").unwrap_or(line);
        if !reading::is_skipped(line) {
            self.add(vector::passes(line));
        }
    }
}

impl fmt::Display for Counts {
    fn fmt<W: fmt::Write>(&self, f: &mut fmt::Formatter<W>) -> fmt::Result {
        write!(f, "{} {}", self.passed, self.failed)
    }
}

// The lines of a file, as far as it is read. What does not fit a line is dropped, the line being too long already, so that a file of any size is read in the same memory.
fn count(file: &mut impl Read) -> Counts {
    let mut counts = Counts::default();
    let mut line = ArrayVec::<u8, LINE>::new();
    let mut chunk = [0u8; CHUNK];
    for _ in 0..CHUNKS {
        let chunk = reading::read_chunk(file, &mut chunk);
        // The first part of a chunk goes on with the line that stands open; each other begins a line.
        for (newlines, part) in chunk.split(|byte| *byte == b'\n').enumerate() {
            if newlines > 0 {
                counts.judge(line.as_slice());
                line.clear();
            }
            let _ = line.write(part);
        }
    }
    counts.judge(line.as_slice());
    counts
}

// The program, and where it prints.
#[derive(Clone, Copy)]
struct KnownAnswers<'a, R> {
    rt: &'a R,
}

impl<R: Print, F: Read + Drop> Program<F> for KnownAnswers<'_, R> {
    type Error = io::Error;

    // What is left of a file that is too long, or cannot be read to its end, is one failure more.
    fn read(self, mut file: F) -> io::Result<()> {
        let mut counts = count(&mut file);
        if !reading::at_end(&mut file) {
            counts.add(false);
        }
        println!(self.rt; "{counts}")
    }

    // A file that cannot be opened is one failure.
    fn go_without(self) -> io::Result<()> {
        let mut counts = Counts::default();
        counts.add(false);
        println!(self.rt; "{counts}")
    }
}

fn main(rt: HostRuntime) -> io::Result<()> {
    reading::with_file(&rt, KnownAnswers { rt: &rt })
}
