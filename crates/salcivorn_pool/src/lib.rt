// What a host in C sees of the pool: its calls on byte slices. Each answers with the refusal's number, 0 for done.
#![tactic(auto)]

ghost use Rattle.std.specs.Prelude.{◌≡◌};
ghost use Rattle.refusal.specs.Answer.{numbered};
ghost use Rattle.pool_sending.specs.Outstanding.{outstanding_of};
ghost use Rattle.pool_standby.specs.Calls.{apply_of, go_alone_of};
ghost use Rattle.pool_adding.specs.Adding.{add_of};
ghost use Rattle.pool_taking.specs.Taking.{take_of, acknowledge_of};

#[unsafe(no_mangle)]
pub extern "C" fn salcivorn_pool_add(state: &mut [u8], rooms: &mut [u8], strip: &[u8]) -> u32
    ensures { (result, (state.new, rooms.new)) ≡ numbered (add_of state.old rooms.old strip.now) }
{
    refusal::answer_number(pool_adding::add(state, rooms, strip))
}

#[unsafe(no_mangle)]
pub extern "C" fn salcivorn_pool_take(
    state: &mut [u8],
    rooms: &mut [u8],
    number: &mut [u8],
    strip: &mut [u8],
) -> u32
    ensures { (result, (state.new, (rooms.new, (number.new, strip.new)))) ≡ numbered (take_of state.old rooms.old number.old strip.old) }
{
    refusal::answer_number(pool_taking::take(state, rooms, number, strip))
}

#[unsafe(no_mangle)]
pub extern "C" fn salcivorn_pool_outstanding(state: &[u8], rooms: &[u8], message: &mut [u8]) -> u32
    ensures { (result, message.new) ≡ numbered (outstanding_of state.now rooms.now message.old) }
{
    refusal::answer_number(pool_sending::outstanding(state, rooms, message))
}

#[unsafe(no_mangle)]
pub extern "C" fn salcivorn_pool_acknowledge(
    state: &mut [u8],
    rooms: &mut [u8],
    acknowledgement: &[u8],
    number: &mut [u8],
    strip: &mut [u8],
) -> u32
    ensures { (result, (state.new, (rooms.new, (number.new, strip.new)))) ≡ numbered (acknowledge_of state.old rooms.old acknowledgement.now number.old strip.old) }
{
    refusal::answer_number(pool_taking::acknowledge(state, rooms, acknowledgement, number, strip))
}

#[unsafe(no_mangle)]
pub extern "C" fn salcivorn_pool_apply(
    state: &mut [u8],
    rooms: &mut [u8],
    message: &[u8],
    acknowledgement: &mut [u8],
) -> u32
    ensures { (result, (state.new, (rooms.new, acknowledgement.new))) ≡ numbered (apply_of state.old rooms.old message.now acknowledgement.old) }
{
    refusal::answer_number(pool_standby::apply(state, rooms, message, acknowledgement))
}

#[unsafe(no_mangle)]
pub extern "C" fn salcivorn_pool_go_alone(state: &mut [u8]) -> u32
    ensures { (result, state.new) ≡ numbered (go_alone_of state.old) }
{
    refusal::answer_number(pool_standby::go_alone(state))
}
