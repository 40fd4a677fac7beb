// The mirrored pool of strips at the standby: it applies the active's messages, and goes on alone when the active is dead.
#![tactic(auto, unfolding(pool_state::specs::State::one_more, pool_state::specs::State::one_taken, pool_state::specs::State::with_role, crate::specs::Calls::applied))]

ghost use Rattle.std.specs.Prelude.{◌≡◌, true, ◌<◌, length, drop, Some};
ghost use Rattle.refusal.specs.Answer.{passes};
ghost use Rattle.pool_message.specs.Message.{read_of, acknowledgement};
ghost use Rattle.pool_rooms.specs.Rooms.{rooms_size};
ghost use Rattle.pool_state.specs.State.{state_in, state_bytes, with_role, sent};
ghost use Rattle.pool_fits.specs.Fits.{fits};
ghost use Rattle.pool_checks.specs.Checks.{apply_checks, go_alone_checks};
ghost use Rattle.pool_standby.specs.Calls.{applied, answered, apply_of, go_alone_of};

use pool_message::Message;
use pool_state::{Role, State};
use refusal::Refusal;

fn write_acknowledgement(sequence: u32, part: &mut [u8])
    requires { length part.old ≡ 8 }
    ensures { part.new ≡ acknowledgement sequence }
{
    part.copy_from_slice(&pool_message::acknowledgement_bytes(sequence));
}

// The next message is applied: the strip is put into its room, or the room of the one taken is zeroed.
fn apply_next(master: State, asked: Message, message: &[u8], state: &mut [u8], rooms: &mut [u8])
    requires asked_value { (Some asked ≡ read_of message.now) × (fits master (Some asked) (drop 12 message.now) ≡ true) }
    requires state_len { (length state.old ≡ 9) × (length rooms.old ≡ rooms_size) }
    requires master_bound { sent master < 4294967295 }
    ensures { (state.new, rooms.new) ≡ applied master (Some asked) (drop 12 message.now) rooms.old }
{
    let role = Role::Standby as u8;
    match asked {
        Message::Adds(_, _) => {
            pool_rooms::put(rooms, master.added, &message[12..]);
            let added = master.added + 1;
            let new = State {
                role,
                added,
                ..master
            };
            new.write(state);
        }
        Message::Takes(_, _) => {
            pool_rooms::clear(rooms, master.taken);
            let taken = master.taken + 1;
            let new = State {
                role,
                taken,
                ..master
            };
            new.write(state);
        }
        Message::Acknowledges(_) => {} // does not fit
    }
}

fn apply_message(state: &mut [u8], rooms: &mut [u8], message: &[u8], acknowledgement: &mut [u8])
    requires { passes (apply_checks state.old (length rooms.old) message.now (length acknowledgement.old)) ≡ true }
    ensures { (state.new, (rooms.new, acknowledgement.new)) ≡ answered state.old rooms.old (read_of message.now) (drop 12 message.now) }
{
    let master = State::read(state);
    let Some(asked) = pool_message::read(message) else {
        return; // what is no message was refused
    };
    let sequence = asked.sequence();
    write_acknowledgement(sequence, acknowledgement);
    if master.sent() < u64::from(sequence) {
        apply_next(master, asked, message, state, rooms);
    }
}

// A message has come to the standby: it is applied if it is the next, and acknowledged.
pub fn apply(
    state: &mut [u8],
    rooms: &mut [u8],
    message: &[u8],
    acknowledgement: &mut [u8],
) -> Result<(), Refusal>
    ensures { (result, (state.new, (rooms.new, acknowledgement.new))) ≡ apply_of state.old rooms.old message.now acknowledgement.old }
{
    pool_checks::apply(state, rooms.len(), message, acknowledgement.len())?;
    apply_message(state, rooms, message, acknowledgement);
    Ok(())
}

fn write_alone(state: &mut [u8])
    requires { passes (go_alone_checks state.old) ≡ true }
    ensures { state.new ≡ state_bytes (with_role (state_in state.old) 4) }
{
    let alone = State {
        role: Role::Alone as u8,
        ..State::read(state)
    };
    alone.write(state);
}

// The standby goes on alone from what it has applied.
pub fn go_alone(state: &mut [u8]) -> Result<(), Refusal>
    ensures { (result, state.new) ≡ go_alone_of state.old }
{
    pool_checks::go_alone(state)?;
    write_alone(state);
    Ok(())
}
