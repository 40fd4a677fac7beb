// Messages between the masters as bytes.
#![tactic(auto, unfolding(pool_numbers::specs::Numbers::number_bytes, crate::specs::Message::front_bytes, crate::specs::Message::acknowledgement, crate::specs::Message::misframed, crate::specs::Message::is_of, crate::specs::Message::read_of, strip::specs::Strip::bad_framing, refusal::specs::Answer::first))]

ghost use Rattle.std.specs.Prelude.{◌≡◌, not, Some};
ghost use Rattle.pool_message.specs.Message.{front_bytes, acknowledgement, misframed, read_of, sequence};

// The kinds of messages, under the numbers of the rules, to which `as` goes; a pattern cannot name a cast, so `read` has the numbers once more.
#[derive(Clone, Copy, Debug, PartialEq, Eq, Hash)]
pub enum Kind {
    Addition = 1,
    Taking = 2,
    Acknowledgement = 3,
}

// What was sent: an addition and a taking with their sequence number and the strip's number, or an acknowledgement.
#[derive(Clone, Copy, Debug, PartialEq, Eq, Hash)]
pub enum Message {
    Adds(u32, u32),
    Takes(u32, u32),
    Acknowledges(u32),
}

impl Message {
    pub fn sequence(self) -> u32
        ensures { result ≡ sequence (Some self) }
    {
        match self {
            Message::Adds(sequence, _)
            | Message::Takes(sequence, _)
            | Message::Acknowledges(sequence) => sequence,
        }
    }
}

// The first eight bytes of every message; an acknowledgement has no more. The library joins arrays into a Vec alone, so they stand one by one.
// The kind is any byte, since this is a public call that took any.
pub fn front_bytes(follows: u16, kind: u8, sequence: u32) -> [u8; 8]
    ensures { result ≡ front_bytes follows kind sequence }
{
    let length = follows.to_be_bytes();
    let number = pool_numbers::number_bytes(sequence);
    [
        length[0], length[1], 1, kind, number[0], number[1], number[2], number[3],
    ]
}

pub fn acknowledgement_bytes(sequence: u32) -> [u8; 8]
    ensures { result ≡ acknowledgement sequence }
{
    front_bytes(6, Kind::Acknowledgement as u8, sequence)
}

// Framed as a strip is, and of version 1.
fn is_framed(part: &[u8]) -> bool
    ensures { result ≡ not (misframed part.now) }
{
    strip::check_framing(part).is_ok() && part[2] == 1
}

// Any bytes are read; what is no message is none. There is no error to tell, so it is an Option and no TryFrom.
// A number is read where the kind has one, since by then the length is known.
pub fn read(part: &[u8]) -> Option<Message>
    ensures { result ≡ read_of part.now }
{
    if !is_framed(part) {
        return None;
    }
    let size = part.len();
    let number = |at| pool_numbers::number_at(part, at);
    match part[3] {
        1 if 12 <= size => Some(Message::Adds(number(4), number(8))),
        2 if size == 12 => Some(Message::Takes(number(4), number(8))),
        3 if size == 8 => Some(Message::Acknowledges(number(4))),
        _ => None,
    }
}

// The sequence number, 0 where there is no message.
pub fn sequence_of(asked: Option<Message>) -> u32
    ensures { result ≡ sequence asked }
{
    asked.map_or(0, |message| message.sequence())
}
