// Strips taken out of the mirrored pool, and handed out once that is acknowledged: at the active master, or at its standby once it goes on alone, where a strip is handed out at once. A state of nine bytes and 64 rooms, both lent by the host.
// State, rooms, number and strip go from call to call as the C interface lends them.
#![tactic(auto, unfolding(crate::specs::Taking::handing_none, pool_state::specs::State::one_taken, pool_state::specs::State::with_role))]

mod parts;
mod steps;

ghost use Rattle.std.specs.Prelude.{◌≡◌};
ghost use Rattle.pool_taking.specs.Taking.{take_of, acknowledge_of};

use refusal::Refusal;

// The lowest strip is taken, and the message of it is outstanding; alone, it is handed out at once.
pub fn take(
    state: &mut [u8],
    rooms: &mut [u8],
    number: &mut [u8],
    strip: &mut [u8],
) -> Result<(), Refusal>
    ensures { (result, (state.new, (rooms.new, (number.new, strip.new)))) ≡ take_of state.old rooms.old number.old strip.old }
{
    pool_checks::take(state, rooms.len(), number.len(), strip.len())?;
    steps::take(state, rooms, number, strip);
    Ok(())
}

// An acknowledgement has come. Only that of the outstanding number counts; any other changes nothing.
pub fn acknowledge(
    state: &mut [u8],
    rooms: &mut [u8],
    acknowledgement: &[u8],
    number: &mut [u8],
    strip: &mut [u8],
) -> Result<(), Refusal>
    ensures { (result, (state.new, (rooms.new, (number.new, strip.new)))) ≡ acknowledge_of state.old rooms.old acknowledgement.now number.old strip.old }
{
    pool_checks::acknowledge(
        state,
        rooms.len(),
        acknowledgement,
        number.len(),
        strip.len(),
    )?;
    steps::acknowledge(state, rooms, acknowledgement, number, strip);
    Ok(())
}
