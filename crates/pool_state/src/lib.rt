// A master's state: nine bytes that the host keeps. It is read, written and held against what a run of calls can make.
#![tactic(auto, unfolding(refusal::specs::Answer::first, refusal::specs::Part::on_length, pool_numbers::specs::Numbers::number_bytes, crate::specs::State::state_in, crate::specs::State::state_bytes, crate::specs::State::full, crate::specs::State::gone, crate::specs::State::never_sent, crate::specs::State::sent_too_much, crate::specs::State::impossible, crate::specs::State::no_state))]

ghost use Rattle.std.specs.Prelude.{◌≡◌, ◌<◌, eqb};
ghost use Rattle.refusal.specs.Refusal.{refusal};
ghost use Rattle.refusal.specs.Answer.{refused_if};
ghost use Rattle.refusal.specs.Part.{on_length};
ghost use Rattle.pool_state.specs.State.{number, state_in, state_bytes, sent, full, gone, never_sent, sent_too_much, impossible, no_state};

use refusal::Refusal;

// A role goes to its number by `as`, which is all that a `From` would do.
// The roles, under their numbers: active with nothing outstanding, with an addition, with a taking outstanding; standby; alone.
#[derive(Clone, Copy, Debug, PartialEq, Eq, Hash)]
pub enum Role {
    Active = 0,
    Adding = 1,
    Taking = 2,
    Standby = 3,
    Alone = 4,
}

// The role is the byte that the host keeps, which may be that of no role.
// Strips are numbered one by one and the lowest is taken first, so the two counts say which are held and which number is next.
#[derive(Clone, Copy, Debug, PartialEq, Eq, Hash)]
pub struct State {
    pub role: u8,
    pub added: u32,
    pub taken: u32,
}

impl State {
    // Any bytes are read; those that are not there count as zero.
    pub fn read(state: &[u8]) -> State
        ensures { result ≡ state_in state.now }
    {
        State {
            role: pool_numbers::byte_at(state, 0),
            added: pool_numbers::number_at(state, 1),
            taken: pool_numbers::number_at(state, 5),
        }
    }

    // The library joins arrays into a Vec alone, so the nine bytes stand one by one.
    fn bytes(self) -> [u8; 9]
        ensures { result ≡ state_bytes self }
    {
        let added = pool_numbers::number_bytes(self.added);
        let taken = pool_numbers::number_bytes(self.taken);
        [
            self.role, added[0], added[1], added[2], added[3], taken[0], taken[1], taken[2],
            taken[3],
        ]
    }

    // A state is written over; a part of any other length is left as it is.
    pub fn write(self, state: &mut [u8])
        ensures { state.new ≡ on_length 9 (λ _. state_bytes self) state.old }
    {
        if state.len() == 9 {
            state.copy_from_slice(&self.bytes());
        }
    }

    pub fn is(self, role: Role) -> bool
        ensures { result ≡ eqb self.role (number role) }
    {
        self.role == role as u8
    }

    // The last sequence number.
    pub fn sent(self) -> u64
        ensures { (result ≡ sent self) × (result < 8589934592) }
    {
        u64::from(self.added) + u64::from(self.taken)
    }

    // Whether a strip is held for each of the 64 rooms.
    pub fn is_full(self) -> bool
        ensures { result ≡ full self }
    {
        u64::from(self.taken) + 64 <= u64::from(self.added)
    }

    // How many strips have left their rooms.
    fn left_rooms(self) -> u32
        ensures { result ≡ gone self }
    {
        if self.is(Role::Taking) {
            self.taken.saturating_sub(1)
        } else {
            self.taken
        }
    }

    // An outstanding message that was never sent.
    fn never_sent(self) -> bool
        ensures { result ≡ never_sent self }
    {
        (self.is(Role::Adding) && self.added == self.taken)
            || (self.is(Role::Taking) && self.taken == 0)
    }

    fn sent_too_much(self) -> bool
        ensures { result ≡ sent_too_much self }
    {
        !self.is(Role::Alone) && u64::from(u32::MAX) < self.sent()
    }

    // Whether no run of calls can have made the counts.
    fn is_impossible(self) -> bool
        ensures { result ≡ impossible self }
    {
        (Role::Alone as u8) < self.role
            || self.added < self.taken
            || u64::from(self.left_rooms()) + 64 < u64::from(self.added)
            || self.never_sent()
            || self.sent_too_much()
    }
}

// 6
pub fn check(state: &[u8]) -> Result<(), Refusal>
    ensures { result ≡ refused_if (refusal 6) (no_state state.now) }
{
    refusal::check_length(state.len(), 9, Refusal::NotLent)?;
    if State::read(state).is_impossible() {
        return Err(Refusal::NotLent);
    }
    Ok(())
}
