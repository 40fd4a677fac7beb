// Every operand, every length of a points buffer up to 200 and every third record byte, called once each: prints how many were answered, how many refused as
// the rules say with nothing lent changed, and how many did anything else.
#![tactic(auto)]

ghost use Rattle.std.specs.Prelude.{ℕ, ◌<◌, ◌≤◌};

use refusal::Refusal;
use std::{fmt, io};
use tower::Record;

const UNTOUCHED: u8 = 0xa5;

// What a call did. There are three cases, each with nothing in it, so it is no Result.
#[derive(Clone, Copy, Debug, PartialEq, Eq)]
enum Outcome {
    Answered,
    Refused,
    Other,
}

#[derive(Clone, Copy, Default)]
struct Counts {
    answered: u64,
    refused: u64,
    other: u64,
}

impl Counts {
    fn add(&mut self, outcome: Outcome) {
        let count = match outcome {
            Outcome::Answered => &mut self.answered,
            Outcome::Refused => &mut self.refused,
            Outcome::Other => &mut self.other,
        };
        *count = count.wrapping_add(1);
    }
}

impl fmt::Display for Counts {
    fn fmt<W: fmt::Write>(&self, f: &mut fmt::Formatter<W>) -> fmt::Result {
        write!(f, "{} {} {}", self.answered, self.refused, self.other)
    }
}

// Whether a call refused, as it has to if it does, for this reason and with what it was lent unchanged.
fn judge<T: Drop>(answer: Result<T, Refusal>, expected: Refusal, unchanged: bool) -> Outcome {
    match answer {
        Ok(_) => Outcome::Answered,
        Err(refusal) if unchanged && refusal == expected => Outcome::Refused,
        Err(_) => Outcome::Other,
    }
}

// A call of the tower, which is lent nothing.
fn operand(answer: Result<u8, Refusal>) -> Outcome {
    judge(answer, Refusal::Operand, true)
}

// A call with this third record byte on the first n bytes of a fresh buffer, which has to be refused for this reason, if at all.
fn points(n: usize, r: u8, expected: Refusal) -> Outcome
    requires { n ≤ 200 }
{
    let record = Record {
        qt: 0x59,
        s: 0x3c,
        r,
    };
    let mut buffer = [UNTOUCHED; 200];
    let answer = inversion::invert_points(0x11, 0x42, record, &mut buffer[..n]);
    let unchanged = buffer == [UNTOUCHED; 200];
    judge(answer, expected, unchanged)
}

// Calls with 0 and every number below this one.
fn tally<F: Fn(usize) -> Outcome>(calls: usize, call: F) -> Counts
where
    F: Drop,
    requires { (i : ℕ) → i < calls → F.pre call i }
{
    let mut counts = Counts::default();
    for i in 0..calls {
        counts.add(call(i));
    }
    counts
}

// Calls with every two bytes.
fn pairs<F: Fn(u8, u8) -> Outcome>(call: F) -> Counts
where
    F: Drop,
    requires { F.IsAlwaysCallable call }
{
    tally(65536, |i| call((i % 256) as u8, (i / 256) as u8))
}

// Calls with every byte.
fn bytes<F: Fn(u8) -> Outcome>(call: F) -> Counts
where
    F: Drop,
    requires { F.IsAlwaysCallable call }
{
    tally(256, |i| call(i as u8))
}

fn report(rt: &impl Print, name: &str, counts: Counts) -> io::Result<()> {
    println!(rt; "{name} {counts}")
}

fn main(rt: HostRuntime) -> io::Result<()> {
    report(
        &rt,
        "pair_product",
        pairs(|x, y| operand(tower::pair_product(x, y))),
    )?;
    report(
        &rt,
        "pair_inverse",
        bytes(|x| operand(tower::pair_inverse(x))),
    )?;
    report(
        &rt,
        "nibble_product",
        pairs(|x, y| operand(tower::nibble_product(x, y))),
    )?;
    report(
        &rt,
        "nibble_inverse",
        bytes(|x| operand(tower::nibble_inverse(x))),
    )?;
    report(
        &rt,
        "points_length",
        tally(201, |n| points(n, 1, Refusal::PointsLength)),
    )?;
    report(
        &rt,
        "third_record_byte",
        bytes(|r| points(62, r, Refusal::ThirdByte)),
    )
}
