// A strip added to the mirrored pool, at the master that adds and takes: the active one, or its standby once it goes on alone. A state of nine bytes and 64 rooms, both lent by the host.
#![tactic(auto, unfolding(pool_state::specs::State::one_more))]

ghost use Rattle.std.specs.Prelude.{◌≡◌, true, length};
ghost use Rattle.refusal.specs.Answer.{passes};
ghost use Rattle.pool_state.specs.State.{state_in};
ghost use Rattle.pool_master.specs.Master.{sending};
ghost use Rattle.pool_checks.specs.Checks.{add_checks};
ghost use Rattle.pool_adding.specs.Adding.{added, add_of};

use pool_state::{Role, State};
use refusal::Refusal;

// What adding does where nothing is refused.
fn add_admitted(state: &mut [u8], rooms: &mut [u8], strip: &[u8])
    requires { passes (add_checks state.old (length rooms.old) strip.now) ≡ true }
    ensures { (state.new, rooms.new) ≡ added (state_in state.old) (sending (state_in state.old) 1) rooms.old strip.now }
{
    let master = State::read(state);
    let role = pool_master::role_sending(master, Role::Adding as u8);
    pool_rooms::put(rooms, master.added, strip);
    let new = State {
        role,
        added: master.added + 1,
        ..master
    };
    new.write(state);
}

// A strip is added under the next number, and its message is outstanding.
pub fn add(state: &mut [u8], rooms: &mut [u8], strip: &[u8]) -> Result<(), Refusal>
    ensures { (result, (state.new, rooms.new)) ≡ add_of state.old rooms.old strip.now }
{
    pool_checks::add(state, rooms.len(), strip)?;
    add_admitted(state, rooms, strip);
    Ok(())
}
