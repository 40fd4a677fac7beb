// What a master's state decides by itself: refusals of its calls, its role once it sends, and which acknowledgement counts.
#![tactic(auto, unfolding(refusal::specs::Answer::first, pool_state::specs::State::full, crate::specs::Master::waiting, crate::specs::Master::used_up, crate::specs::Master::no_room, crate::specs::Master::none_held, crate::specs::Master::is_standby, crate::specs::Master::sending, crate::specs::Master::counts))]

ghost use Rattle.std.specs.Prelude.{◌≡◌, [], ◌∷◌, Ok, Err};
ghost use Rattle.refusal.specs.Refusal.{refusal};
ghost use Rattle.refusal.specs.Answer.{refused_if, first};
ghost use Rattle.pool_master.specs.Master.{waiting, used_up, no_room, none_held, is_standby, sending, counts};

use pool_state::{Role, State};
use refusal::Refusal;

// 6, to a standby.
pub fn check_not_standby(master: State) -> Result<(), Refusal>
    ensures { result ≡ refused_if (refusal 6) (is_standby master) }
{
    if master.is(Role::Standby) {
        return Err(Refusal::NotLent);
    }
    Ok(())
}

fn is_waiting(master: State) -> bool
    ensures { result ≡ waiting master }
{
    master.is(Role::Adding) || master.is(Role::Taking)
}

// 23
fn check_waiting(master: State) -> Result<(), Refusal>
    ensures { result ≡ refused_if (refusal 23) (waiting master) }
{
    if is_waiting(master) {
        return Err(Refusal::Waiting);
    }
    Ok(())
}

// 24: alone it falls away.
fn check_numbers(master: State) -> Result<(), Refusal>
    ensures { result ≡ refused_if (refusal 24) (used_up master) }
{
    if !master.is(Role::Alone) && u64::from(u32::MAX) <= master.sent() {
        return Err(Refusal::UsedUp);
    }
    Ok(())
}

// 14
pub fn check_room(master: State) -> Result<(), Refusal>
    ensures { result ≡ refused_if (refusal 14) (no_room master) }
{
    if master.is_full() || master.added == u32::MAX {
        return Err(Refusal::NoRoom);
    }
    Ok(())
}

// 15
pub fn check_held(master: State) -> Result<(), Refusal>
    ensures { result ≡ refused_if (refusal 15) (none_held master) }
{
    if master.added <= master.taken {
        return Err(Refusal::NoneHeld);
    }
    Ok(())
}

// Whether another message may be sent: 23, 24.
pub fn check_sending(master: State) -> Result<(), Refusal>
    ensures { result ≡ first ((23, waiting master) ∷ (24, used_up master) ∷ []) Err (Ok tt) }
{
    check_waiting(master)?;
    check_numbers(master)
}

// The role of a master that sends a message of this kind; alone, none is sent.
// The kind is any byte, since this is a public call that took any.
pub fn role_sending(master: State, kind: u8) -> u8
    ensures { result ≡ sending master kind }
{
    if master.is(Role::Alone) {
        return Role::Alone as u8;
    }
    kind
}

pub fn counted(master: State, sequence: u32) -> bool
    ensures { result ≡ counts master sequence }
{
    is_waiting(master) && u64::from(sequence) == master.sent()
}
