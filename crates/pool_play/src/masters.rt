// The calls of the pool on one master, which each changes in place.
ghost use Rattle.std.specs.Prelude.{◌≤◌};

use crate::link::Item;
use pool_state::{Role, State};
use refusal::Refusal;
use std::fmt;

// A strip that was handed out, under its number.
#[derive(Clone, Copy)]
pub struct Strip {
    pub number: u32,
    pub bytes: [u8; 676],
}

// A master's state and rooms.
#[derive(Clone, Copy)]
pub struct Master {
    pub state: [u8; 9],
    pub rooms: [u8; 43264],
}

// How long a strip is for keys of a size. `stock_one` adds strips of a literal size, so its bound is no type's.
fn size_of(key_size: u8) -> usize
    requires { key_size ≤ 32 }
    ensures { (292 ≤ result) × (result ≤ 676) }
{
    12 * usize::from(key_size) + 292
}

// The bytes of a strip, with more behind it where it is not the longest. The fifth and sixth tell which of those ever made it is; the other records' bytes are below 4, as every third has to be.
fn make_strip(key_size: u8, made: u32) -> [u8; 676]
    requires { key_size ≤ 32 }
{
    let [high, low] = ((size_of(key_size) - 2) as u16).to_be_bytes();
    let [_, _, sixth, fifth] = made.to_be_bytes();
    let mut strip = [0u8; 676];
    for (byte, below) in strip.iter_mut().zip((0..4).cycle()) {
        *byte = below;
    }
    strip[..6].copy_from_slice(&[high, low, 1, key_size, fifth, sixth]);
    strip
}

// The strip that a call handed out; the number beside it is 0 where it handed out none.
fn handed_out(number: [u8; 4], bytes: [u8; 676]) -> Option<Strip> {
    match u32::from_be_bytes(number) {
        0 => None,
        number => Some(Strip { number, bytes }),
    }
}

impl Master {
    // A new master, an active one or a standby.
    pub fn new(role: Role) -> Master {
        let mut state = [0; 9];
        let new = State {
            role: role as u8,
            added: 0,
            taken: 0,
        };
        new.write(&mut state);
        Master {
            state,
            rooms: [0; 43264],
        }
    }

    // A new strip is added.
    pub fn add(&mut self, key_size: u8, made: u32) -> Result<(), Refusal>
        requires { key_size ≤ 32 }
    {
        let strip = make_strip(key_size, made);
        let strip = &strip[..size_of(key_size)];
        pool_adding::add(&mut self.state, &mut self.rooms, strip)
    }

    // This and `acknowledge` have their own five parts; a closure over them would be longer than either.
    pub fn take(&mut self) -> Result<Option<Strip>, Refusal> {
        let mut number = [0; 4];
        let mut strip = [0; 676];
        pool_taking::take(&mut self.state, &mut self.rooms, &mut number, &mut strip)?;
        Ok(handed_out(number, strip))
    }

    pub fn acknowledge(&mut self, acknowledgement: &Item) -> Result<Option<Strip>, Refusal> {
        let mut number = [0; 4];
        let mut strip = [0; 676];
        pool_taking::acknowledge(
            &mut self.state,
            &mut self.rooms,
            acknowledgement.message(),
            &mut number,
            &mut strip,
        )?;
        Ok(handed_out(number, strip))
    }

    pub fn go_alone(&mut self) -> Result<(), Refusal> {
        pool_standby::go_alone(&mut self.state)
    }

    // The outstanding message is read out, where there is one; where there is none, the pool leaves zeros, whose length field says two bytes.
    pub fn outstanding(&self) -> Option<Item> {
        let mut item = Item::EMPTY;
        pool_sending::outstanding(&self.state, &self.rooms, &mut item.bytes).ok()?;
        if item.message().len() == 2 {
            return None;
        }
        Some(item)
    }

    // A message is applied, and answers its acknowledgement.
    pub fn apply(&mut self, message: &Item) -> Result<Item, Refusal> {
        let mut item = Item::EMPTY;
        pool_standby::apply(
            &mut self.state,
            &mut self.rooms,
            message.message(),
            &mut item.bytes[..8],
        )?;
        Ok(item)
    }
}

// The numbers that a master holds, lowest to highest, and how many; and what its role adds to it.
impl fmt::Display for Master {
    fn fmt<W: fmt::Write>(&self, f: &mut fmt::Formatter<W>) -> fmt::Result {
        let state = State::read(&self.state);
        if state.taken < state.added {
            let held = state.added - state.taken;
            write!(f, "{}-{} ({held})", state.taken + 1, state.added)?;
        } else {
            f.write_str("none")?;
        }
        if state.is(Role::Adding) || state.is(Role::Taking) {
            f.write_str(", waiting")
        } else if state.is(Role::Alone) {
            f.write_str(", alone")
        } else {
            Ok(())
        }
    }
}
