// What the program prints of a step.
use crate::link::{Item, Link};
use crate::masters::Strip;
use crate::steps::{Play, Tally};
use crate::words::Side;
use refusal::Refusal;
use std::io;

pub fn answer<T>(rt: &impl Print, answer: &Result<T, Refusal>) -> io::Result<()> {
    match answer {
        Ok(_) => print!(rt; "done"),
        Err(refusal) => print!(rt; "{refusal}"),
    }
}

// A strip that was handed out; its key size and its fifth byte show which it is.
pub fn strip(rt: &impl Print, strip: &Strip, side: Side) -> io::Result<()> {
    print!(rt;
        "handed out {} by the {side}, {} byte keys, fifth byte {}",
        strip.number, strip.bytes[3], strip.bytes[4],
    )
}

// An item that was put on the link.
pub fn sent(rt: &impl Print, what: &str, link: &Link, item: &Item) -> io::Result<()> {
    print!(rt;
        "{what} {} on the link, sequence number {}",
        link.sent,
        item.sequence_number()
    )
}

// What each master holds, at the end of a step's line.
pub fn holdings(rt: &impl Print, play: &Play) -> io::Result<()> {
    if play.power {
        print!(rt; " | active {}", play.active.master)?;
    } else {
        print!(rt; " | active without power")?;
    }
    println!(rt; " | standby {}", play.standby.master)
}

pub fn summary(rt: &impl Print, tally: &Tally) -> io::Result<()> {
    println!(rt;
        "{} numbers handed out, {} of them twice",
        tally.numbers, tally.twice
    )
}
