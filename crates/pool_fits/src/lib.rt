// Whether a message is one that a standby applies: of good form, and not beyond the next.
#![tactic(auto, using(crate::proofs::Fits::read_long, crate::proofs::Fits::good_form, crate::proofs::Fits::whole_strip), unfolding(pool_state::specs::State::full, pool_master::specs::Master::none_held, crate::specs::Fits::fits, crate::specs::Fits::not_applied))]

ghost use Rattle.std.specs.Prelude.{◌≡◌, [], not, drop, Some};
ghost use Rattle.refusal.specs.Refusal.{refusal};
ghost use Rattle.refusal.specs.Answer.{refused_if};
ghost use Rattle.pool_message.specs.Message.{read_of};
ghost use Rattle.pool_message.specs.declared.Message.TheVariants as sort;
ghost use Rattle.pool_fits.specs.Fits.{fits, is_message, not_applied};

use pool_message::Message;
use pool_state::{Role, State};
use refusal::Refusal;

fn fits_adding(master: State, number: u32, strip: &[u8]) -> bool
    ensures { result ≡ fits master (Some (sort.Adds 0 number)) strip.now }
{
    if strip_checks::check_own(strip).is_err() {
        return false; // of bad form
    }
    !master.is_full() && u64::from(number) == u64::from(master.added) + 1
}

fn fits_taking(master: State, number: u32) -> bool
    ensures { result ≡ fits master (Some (sort.Takes 0 number)) [] }
{
    pool_master::check_held(master).is_ok() && u64::from(number) == u64::from(master.taken) + 1
}

// Whether what a message asks for can be done next.
fn fits_next(master: State, asked: Message, message: &[u8]) -> bool
    requires { Some asked ≡ read_of message.now }
    ensures { result ≡ fits master (Some asked) (drop 12 message.now) }
{
    match asked {
        Message::Adds(_, number) => fits_adding(master, number, &message[12..]),
        Message::Takes(_, number) => fits_taking(master, number),
        Message::Acknowledges(_) => false,
    }
}

fn check_kind(asked: Message) -> Result<(), Refusal>
    ensures { result ≡ refused_if (refusal 16) (not (is_message (Some asked))) }
{
    match asked {
        Message::Adds(_, _) | Message::Takes(_, _) => Ok(()),
        Message::Acknowledges(_) => Err(Refusal::BadMessage),
    }
}

// 16
pub fn check_message(master: State, message: &[u8]) -> Result<(), Refusal>
    ensures { result ≡ refused_if (refusal 16) (not_applied master (read_of message.now) (drop 12 message.now)) }
{
    if !master.is(Role::Standby) {
        return Err(Refusal::BadMessage);
    }
    let asked = pool_message::read(message).ok_or(Refusal::BadMessage)?;
    check_kind(asked)?;
    let next = master.sent() + 1;
    let number = u64::from(asked.sequence());
    if next < number {
        return Err(Refusal::BadMessage);
    }
    if number == next && !fits_next(master, asked, message) {
        return Err(Refusal::BadMessage);
    }
    Ok(())
}
