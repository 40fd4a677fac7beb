// What the calls of a pool refuse: one check for each call, of its name. Nothing is changed here.
#![tactic(auto, unfolding(refusal::specs::Answer::first))]

ghost use Rattle.std.specs.Prelude.{◌≡◌, not, Ok, Err};
ghost use Rattle.refusal.specs.Refusal.{refusal};
ghost use Rattle.refusal.specs.Answer.{refused_if, first};
ghost use Rattle.pool_checks.specs.Checks.{add_checks, take_checks, outstanding_checks, is_acknowledgement, acknowledge_checks, apply_checks, go_alone_checks};

use pool_message::Message;
use pool_state::{Role, State};
use refusal::Refusal;

pub fn add(state: &[u8], rooms: usize, strip: &[u8]) -> Result<(), Refusal>
    ensures { result ≡ first (add_checks state.now rooms strip.now) Err (Ok tt) }
{
    pool_lent::check_lent(state, rooms)?;
    let master = State::read(state);
    pool_master::check_not_standby(master)?;
    pool_master::check_sending(master)?;
    strip_checks::check_own(strip)?;
    pool_master::check_room(master)
}

pub fn take(state: &[u8], rooms: usize, number: usize, strip: usize) -> Result<(), Refusal>
    ensures { result ≡ first (take_checks state.now rooms number strip) Err (Ok tt) }
{
    pool_lent::check_lent_out(state, rooms, number, strip)?;
    let master = State::read(state);
    pool_master::check_not_standby(master)?;
    pool_master::check_sending(master)?;
    pool_master::check_held(master)
}

pub fn outstanding(state: &[u8], rooms: usize, message: usize) -> Result<(), Refusal>
    ensures { result ≡ first (outstanding_checks state.now rooms message) Err (Ok tt) }
{
    pool_lent::check_lent_with(688, state, rooms, message)
}

fn check_acknowledgement(asked: Option<Message>) -> Result<(), Refusal>
    ensures { result ≡ refused_if (refusal 16) (not (is_acknowledgement asked)) }
{
    match asked {
        Some(Message::Acknowledges(_)) => Ok(()),
        _ => Err(Refusal::BadMessage),
    }
}

pub fn acknowledge(
    state: &[u8],
    rooms: usize,
    acknowledgement: &[u8],
    number: usize,
    strip: usize,
) -> Result<(), Refusal>
    ensures { result ≡ first (acknowledge_checks state.now rooms acknowledgement.now number strip) Err (Ok tt) }
{
    pool_lent::check_lent_out(state, rooms, number, strip)?;
    check_acknowledgement(pool_message::read(acknowledgement))
}

pub fn apply(
    state: &[u8],
    rooms: usize,
    message: &[u8],
    acknowledgement: usize,
) -> Result<(), Refusal>
    ensures { result ≡ first (apply_checks state.now rooms message.now acknowledgement) Err (Ok tt) }
{
    pool_lent::check_lent_with(8, state, rooms, acknowledgement)?;
    pool_fits::check_message(State::read(state), message)
}

// An active master does not go on alone.
pub fn go_alone(state: &[u8]) -> Result<(), Refusal>
    ensures { result ≡ first (go_alone_checks state.now) Err (Ok tt) }
{
    pool_state::check(state)?;
    if State::read(state).role < Role::Standby as u8 {
        return Err(Refusal::NotLent);
    }
    Ok(())
}
