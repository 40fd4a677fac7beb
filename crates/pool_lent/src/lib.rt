// Whether a call of the pool is lent what it must be: a state that a run of calls makes, rooms of their size, and further parts of theirs. Where not, 6 applies.
#![tactic(auto, unfolding(crate::specs::Lent::not_lent, crate::specs::Lent::not_lent_with, crate::specs::Lent::not_lent_out))]

ghost use Rattle.std.specs.Prelude.{◌≡◌};
ghost use Rattle.refusal.specs.Refusal.{refusal};
ghost use Rattle.refusal.specs.Answer.{refused_if};
ghost use Rattle.pool_lent.specs.Lent.{not_lent, not_lent_with, not_lent_out};

use refusal::Refusal;

// State and rooms.
pub fn check_lent(state: &[u8], rooms: usize) -> Result<(), Refusal>
    ensures { result ≡ refused_if (refusal 6) (not_lent state.now rooms) }
{
    pool_state::check(state)?;
    refusal::check_length(rooms, pool_rooms::ROOMS_SIZE, Refusal::NotLent)
}

// With a further part that has one size.
pub fn check_lent_with(size: usize, state: &[u8], rooms: usize, part: usize) -> Result<(), Refusal>
    ensures { result ≡ refused_if (refusal 6) (not_lent_with size state.now rooms part) }
{
    check_lent(state, rooms)?;
    refusal::check_length(part, size, Refusal::NotLent)
}

// For a strip that is handed out, with its number.
pub fn check_lent_out(
    state: &[u8],
    rooms: usize,
    number: usize,
    strip: usize,
) -> Result<(), Refusal>
    ensures { result ≡ refused_if (refusal 6) (not_lent_out state.now rooms number strip) }
{
    check_lent_with(4, state, rooms, number)?;
    refusal::check_length(strip, pool_rooms::ROOM_SIZE, Refusal::NotLent)
}
