// What the two calls do where nothing is refused: one step for each, of its name. Where no strip is handed out, the number is 0, and rooms and strip stay.
ghost use Rattle.std.specs.Prelude.{◌≡◌, true, length};
ghost use Rattle.refusal.specs.Answer.{passes};
ghost use Rattle.pool_message.specs.Message.{read_of, sequence};
ghost use Rattle.pool_state.specs.State.{state_in};
ghost use Rattle.pool_master.specs.Master.{sending};
ghost use Rattle.pool_checks.specs.Checks.{take_checks, acknowledge_checks};
ghost use Rattle.pool_taking.specs.Taking.{taken, acknowledged};

use crate::parts;
use pool_state::{Role, State};

pub fn take(state: &mut [u8], rooms: &mut [u8], number: &mut [u8], strip: &mut [u8])
    requires { passes (take_checks state.old (length rooms.old) (length number.old) (length strip.old)) ≡ true }
    ensures { (state.new, (rooms.new, (number.new, strip.new))) ≡ taken (state_in state.old) rooms.old strip.old }
{
    let master = State::read(state);
    let role = pool_master::role_sending(master, Role::Taking as u8);
    let new = State {
        role,
        taken: master.taken + 1,
        ..master
    };
    new.write(state);
    if master.is(Role::Alone) {
        parts::hand_out(rooms, master.taken, number, strip);
    } else {
        parts::write_number(0, number);
    }
}

// The outstanding message is acknowledged: a strip that was taken is handed out.
pub fn acknowledge(
    state: &mut [u8],
    rooms: &mut [u8],
    acknowledgement: &[u8],
    number: &mut [u8],
    strip: &mut [u8],
)
    requires { passes (acknowledge_checks state.old (length rooms.old) acknowledgement.now (length number.old) (length strip.old)) ≡ true }
    ensures { (state.new, (rooms.new, (number.new, strip.new))) ≡ acknowledged state.old rooms.old (sequence (read_of acknowledgement.now)) strip.old }
{
    let master = State::read(state);
    let sequence = pool_message::sequence_of(pool_message::read(acknowledgement));
    if !pool_master::counted(master, sequence) {
        parts::write_number(0, number);
        return;
    }
    let new = State {
        role: Role::Active as u8,
        ..master
    };
    new.write(state);
    if master.is(Role::Taking) {
        parts::hand_out(rooms, master.taken.saturating_sub(1), number, strip);
    } else {
        parts::write_number(0, number);
    }
}
