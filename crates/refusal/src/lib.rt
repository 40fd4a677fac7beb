// Refusals: what is refused, of which kind and under which number; the answer of a call over C; and the checks that every crate shares.
#![tactic(auto)]

ghost use Rattle.std.specs.Prelude.{◌≡◌, ◌||◌};
ghost use Rattle.refusal.specs.Refusal.{number, kind};
ghost use Rattle.refusal.specs.Answer.{refused_if, above, is_not, none_of, answer_number};

use std::error::Error;
use std::fmt;

// What kind of thing is refused.
#[derive(Clone, Copy, Debug, PartialEq, Eq, Hash)]
pub enum Kind {
    Operand,
    Key,
    Buffer,
    Strip,
    Direction,
    Pool,
    Message,
    Trace,
}

// What is refused, under the numbers of the rules. No call gives 17 to 22 yet.
#[derive(Clone, Copy, Debug, PartialEq, Eq, Hash)]
pub enum Refusal {
    Operand = 1,
    ThirdByte = 2,
    PointsLength = 3,
    KeyLength = 4,
    RoundKeysLength = 5,
    NotLent = 6,
    BadFraming = 7,
    UnknownVersion = 8,
    OtherKeySize = 9,
    BadRecord = 10,
    Spent = 11,
    WrongRecordBytes = 12,
    NoDirection = 13,
    NoRoom = 14,
    NoneHeld = 15,
    BadMessage = 16,
    NoStrip = 17,
    LongMessage = 18,
    EncryptsOnly = 19,
    RetiredKey = 20,
    BadTrace = 21,
    OtherPoint = 22,
    Waiting = 23,
    UsedUp = 24,
}

impl Refusal {
    // The number goes to a host.
    pub fn number(self) -> u32
        ensures { result ≡ number self }
    {
        self as u32
    }

    // The kind is for callers inside the language.
    pub fn kind(self) -> Kind
        ensures { result ≡ kind self }
    {
        match self {
            Refusal::Operand | Refusal::ThirdByte => Kind::Operand,
            Refusal::KeyLength | Refusal::RetiredKey => Kind::Key,
            Refusal::PointsLength | Refusal::RoundKeysLength | Refusal::NotLent => Kind::Buffer,
            Refusal::BadFraming
            | Refusal::UnknownVersion
            | Refusal::OtherKeySize
            | Refusal::BadRecord
            | Refusal::Spent
            | Refusal::WrongRecordBytes
            | Refusal::NoStrip
            | Refusal::EncryptsOnly => Kind::Strip,
            Refusal::NoDirection => Kind::Direction,
            Refusal::NoRoom | Refusal::NoneHeld | Refusal::Waiting | Refusal::UsedUp => Kind::Pool,
            Refusal::BadMessage | Refusal::LongMessage => Kind::Message,
            Refusal::BadTrace | Refusal::OtherPoint => Kind::Trace,
        }
    }
}

impl fmt::Display for Refusal {
    fn fmt<W: fmt::Write>(&self, f: &mut fmt::Formatter<W>) -> fmt::Result {
        write!(f, "refused, {}", self.number())
    }
}

impl Error for Refusal {}

// Refuses what is above the most allowed.
pub fn check_most(x: u8, most: u8, refusal: Refusal) -> Result<(), Refusal>
    ensures { result ≡ refused_if refusal (above most x) }
{
    if most < x { Err(refusal) } else { Ok(()) }
}

// Refuses where one of the two is above the most allowed.
pub fn check_both(x: u8, y: u8, most: u8, refusal: Refusal) -> Result<(), Refusal>
    ensures { result ≡ refused_if refusal (above most x || above most y) }
{
    check_most(x, most, refusal)?;
    check_most(y, most, refusal)
}

// Refuses a length that is not the one wanted.
pub fn check_length(length: usize, wanted: usize, refusal: Refusal) -> Result<(), Refusal>
    ensures { result ≡ refused_if refusal (is_not wanted length) }
{
    if length == wanted {
        Ok(())
    } else {
        Err(refusal)
    }
}

// Refuses a length that is none of those wanted.
// The proof names no test, so that a wrong program that asks another is refused for what it asks.
#[tactic(auto, using(crate::proofs::Lengths::there, crate::proofs::Lengths::absent))]
pub fn check_lengths(length: usize, wanted: &[usize], refusal: Refusal) -> Result<(), Refusal>
    ensures { result ≡ refused_if refusal (none_of wanted.now length) }
{
    if wanted.contains(&length) {
        Ok(())
    } else {
        Err(refusal)
    }
}

// What a host gets: 0 where the call is done, else the number of the refusal.
pub fn answer_number<T: Drop>(answer: Result<T, Refusal>) -> u32
    ensures { result ≡ answer_number answer }
{
    match answer {
        Ok(_) => 0,
        Err(refusal) => refusal.number(),
    }
}
