// Plays a script over two masters of the mirrored pool, an active one and its standby, and the link between them: a line of output for each step, and at the end how many strips' numbers were handed out and how many of them twice.
// words.rt has the words of a script. What this prints is tested; proved is that it ends and never reaches outside a buffer. What the calls do is proved in pool_adding, pool_taking, pool_standby and pool_sending.
#![tactic(auto)]

mod link;
mod masters;
mod report;
mod steps;
mod words;

use reading::Program;
use std::io;
use std::io::Read;
use steps::Play;

// A script has at most so many bytes.
const SCRIPT: usize = 65536;

fn no_step(rt: &impl Print, number: usize) -> io::Result<()> {
    println!(rt; "line {number} is no step")
}

// A line is a step, whose line of output ends with what each master holds then, or is said to be none. A line that is no text is no step either.
fn play_line(rt: &impl Print, play: &mut Play, number: usize, line: &[u8]) -> io::Result<()> {
    let Ok(text) = str::from_utf8(line) else {
        return no_step(rt, number);
    };
    let Some(step) = words::read(text) else {
        return no_step(rt, number);
    };
    print!(rt; "{number} {text}: ")?;
    play.step(rt, step)?;
    report::holdings(rt, play)
}

// A line without the spaces and the carriage return at its end.
fn trimmed(line: &[u8]) -> &[u8] {
    let last = line
        .iter()
        .rposition(|byte| !matches!(byte, b' ' | b'\t' | b'\r'));
    match last {
        Some(last) => &line[..last + 1],
        None => &[],
    }
}

// Blank lines and comments are passed over.
fn play_script(rt: &impl Print, script: &[u8]) -> io::Result<()> {
    let mut play = Play::new();
    for (before, line) in script.split(|byte| *byte == b'\n').enumerate() {
        let line = trimmed(line);
        if !reading::is_skipped(line) {
            play_line(rt, &mut play, before + 1, line)?;
        }
    }
    report::summary(rt, &play.tally)
}

fn unreadable(rt: &impl Print) -> io::Result<()> {
    println!(rt; "the script cannot be read")
}

// The program, and where it prints.
#[derive(Clone, Copy)]
struct PoolPlay<'a, R> {
    rt: &'a R,
}

impl<R: Print, F: Read + Drop> Program<F> for PoolPlay<'_, R> {
    type Error = io::Error;

    fn read(self, mut file: F) -> io::Result<()> {
        let mut script = [0u8; SCRIPT];
        let script = reading::read_chunk(&mut file, &mut script);
        if reading::at_end(&mut file) {
            play_script(self.rt, script)
        } else {
            unreadable(self.rt)
        }
    }

    fn go_without(self) -> io::Result<()> {
        unreadable(self.rt)
    }
}

fn main(rt: HostRuntime) -> io::Result<()> {
    reading::with_file(&rt, PoolPlay { rt: &rt })
}
