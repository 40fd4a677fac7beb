// The message that a master has outstanding, as bytes for the host to send. Nothing changes by it, so it is read out as often as the host likes.
#![tactic(auto)]

ghost use Rattle.std.specs.Prelude.{◌≡◌, true, ◌++◌, ◌-◌, ◌<◌, length, drop, replicate};
ghost use Rattle.refusal.specs.Answer.{passes};
ghost use Rattle.pool_numbers.specs.Numbers.{number_bytes};
ghost use Rattle.pool_message.specs.Message.{front_bytes, addition};
ghost use Rattle.pool_rooms.specs.Rooms.{room_at, padded, strip_in};
ghost use Rattle.pool_state.specs.State.{state_in, sent};
ghost use Rattle.pool_checks.specs.Checks.{outstanding_checks};
ghost use Rattle.pool_sending.specs.Outstanding.{message_of, outstanding_of};

use pool_message::Kind;
use pool_state::{Role, State};
use refusal::Refusal;

// A message's first twelve bytes; the kind is a byte, as `front_bytes` has it.
fn write_front(follows: u16, kind: u8, sequence: u32, number: u32, message: &mut [u8])
    requires { length message.old ≡ 688 }
    ensures { message.new ≡ (front_bytes follows kind sequence ++ number_bytes number) ++ drop 12 message.old }
{
    message[..8].copy_from_slice(&pool_message::front_bytes(follows, kind, sequence));
    message[8..12].copy_from_slice(&pool_numbers::number_bytes(number));
}

// The strip in a room, whatever the room holds.
fn strip_in(room: &[u8]) -> &[u8]
    ensures { result.now ≡ strip_in room.now }
{
    let field = [
        pool_numbers::byte_at(room, 0),
        pool_numbers::byte_at(room, 1),
    ];
    let size = usize::from(u16::from_be_bytes(field)) + 2;
    &room[..size.min(room.len())]
}

// The strip first, over zeros, then what stands before it.
fn write_addition(master: State, rooms: &[u8], message: &mut [u8])
    requires message_value { message.old ≡ replicate 688 0 }
    requires master_bound { (sent master < 4294967296) × (0 < master.added) }
    ensures { message.new ≡ padded 688 (addition (sent master) master.added (strip_in (room_at rooms.now (master.added - 1)))) }
{
    let strip = strip_in(pool_rooms::room(rooms, master.added - 1));
    let size = strip.len();
    message[12..12 + size].copy_from_slice(strip);
    let follows = 10 + (size as u16);
    let sequence = master.added + master.taken;
    let kind = Kind::Addition as u8;
    write_front(follows, kind, sequence, master.added, message);
}

// The message over zeros, by the role.
fn write_message(state: &[u8], rooms: &[u8], message: &mut [u8])
    requires { passes (outstanding_checks state.now (length rooms.now) (length message.old)) ≡ true }
    ensures { message.new ≡ padded 688 (message_of (state_in state.now) rooms.now) }
{
    let master = State::read(state);
    strip::zero(message);
    if master.is(Role::Adding) {
        write_addition(master, rooms, message);
    } else if master.is(Role::Taking) {
        let sequence = master.added + master.taken;
        let kind = Kind::Taking as u8;
        write_front(10, kind, sequence, master.taken, message);
    }
}

// The message that is outstanding, as often as it is asked for.
pub fn outstanding(state: &[u8], rooms: &[u8], message: &mut [u8]) -> Result<(), Refusal>
    ensures { (result, message.new) ≡ outstanding_of state.now rooms.now message.old }
{
    pool_checks::outstanding(state, rooms.len(), message.len())?;
    write_message(state, rooms, message);
    Ok(())
}
