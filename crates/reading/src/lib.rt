// What the programs do with the file that their first argument names: open it, read it in chunks, and pass over what is no line of theirs.
#![tactic(auto)]

ghost use Rattle.std.specs.Prelude.{◌≡◌, ◌≤◌, ◌||◌, ◌==◌, ◌⊎◌, length, slice_index};

use std::env::Env;
use std::fs::File;
use std::io::Read;
use std::rt::Files;

#[cfg(test)]
mod tests;

// No path of the system is longer.
const PATH: usize = 4096;

// What a program does with the file that its first argument names, and what it does where there is none. Neither asks anything of its caller, and what they give is any answer unless a program says more.
pub trait Program<F> {
    ghost use Rattle.std.specs.Prelude.{Result, ⊤};

    type Error;

    ghost read_gives: { Self → F → Result (Unit {0}) Self.Error → Type 0 } = { λ _ _ _. ⊤ };

    ghost go_without_gives: { Self → Result (Unit {0}) Self.Error → Type 0 } = { λ _ _. ⊤ };

    fn read(self, file: F) -> Result<(), Self::Error>
        ensures { read_gives self file result };

    fn go_without(self) -> Result<(), Self::Error>
        ensures { go_without_gives self result };
}

// Opens the file that the first argument names; where it cannot be opened, standard error has the reason.
// A name that is missing, too long for a path or no text is taken for the empty one, which no file has; std's list of all arguments would fail at any of them that is no text.
pub fn with_file<R, P>(rt: &R, program: P) -> Result<(), P::Error>
where
    R: Env + Files + Eprint,
    P: Program<R::File> + Drop,
    P::Error: Drop,
    ensures { ((file : R.File) × P.read_gives program file result) ⊎ P.go_without_gives program result }
{
    let mut name = [0u8; PATH];
    let n = rt.arg(1, &mut name).unwrap_or(0);
    let path = str::from_utf8(&name[..n]).unwrap_or("");
    match File::open(rt, path) {
        Ok(file) => program.read(file),
        Err(error) => {
            let _ = eprintln!(rt; "{path}: {error}");
            program.go_without()
        }
    }
}

// Reads until the buffer is full, the file ends or a read fails, and answers how many bytes it put at the buffer's start, which std's `read_exact` does not say of a file that is shorter.
pub fn read_full(file: &mut impl Read, buffer: &mut [u8]) -> usize
    ensures { result ≤ length buffer.new }
{
    let mut done = 0;
    while done < buffer.len() {
        let Ok(n @ 1..) = file.read(&mut buffer[done..]) else {
            break;
        };
        done += n;
    }
    done
}

// The next chunk of a file, in the buffer that it is read into. A read that fails or finds the end leaves it short, and the next one goes on.
pub fn read_chunk<'a>(file: &mut impl Read, buffer: &'a mut [u8]) -> &'a [u8]
    ensures { length result.now ≤ length buffer.old }
{
    let n = read_full(file, buffer);
    &buffer[..n]
}

// Whether nothing is left to be read. A folder, which opens and cannot be read, answers false, and so does a file that is too long.
pub fn at_end(file: &mut impl Read) -> bool {
    let mut byte = [0u8; 1];
    matches!(file.read(&mut byte), Ok(0))
}

// Empty lines and comments are passed over.
pub fn is_skipped(line: &[u8]) -> bool
    ensures { result ≡ (length line.now == 0 || slice_index line.now 0 == 35) }
{
    matches!(line, [] | [b'#', ..])
}
