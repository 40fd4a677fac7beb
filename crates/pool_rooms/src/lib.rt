// The rooms of a pool: 64 of 676 bytes in one lent part. Where each begins, a strip put into one, and one zeroed.
#![tactic(auto, unfolding(crate::specs::Rooms::filled_by, crate::specs::Rooms::filled, crate::specs::Rooms::padded, crate::specs::Rooms::cleared, crate::specs::Rooms::room_at))]

ghost use Rattle.std.specs.Prelude.{◌≡◌, ◌+◌, ◌*◌, ◌%◌, ◌≤◌, List, length};
ghost use Rattle.refusal.specs.Part.{on_length};
ghost use Rattle.pool_rooms.specs.Rooms.{rooms_size, room_at, padded, filled_by, cleared};

pub const ROOMS: u32 = 64;

pub const ROOM_SIZE: usize = 676;

pub const ROOMS_SIZE: usize = 64 * ROOM_SIZE;

// Where the room begins of the strip that has n before it. `From` does not go from u32 to usize, and this cast is proved to lose nothing.
pub fn room_start(n: u32) -> usize
    ensures { (result ≡ 676 * (n % 64)) × (result + 676 ≤ rooms_size) }
{
    ROOM_SIZE * ((n % ROOMS) as usize)
}

// The room of the strip that has n before it; of rooms that are too short, as much of it as is there.
pub fn room(rooms: &[u8], n: u32) -> &[u8]
    ensures { result.now ≡ room_at rooms.now n }
{
    let start = room_start(n).min(rooms.len());
    let from = &rooms[start..];
    &from[..from.len().min(ROOM_SIZE)]
}

// Bytes, and zeros behind them.
fn fill(from: &[u8], part: &mut [u8])
    requires { length from.now ≤ length part.old }
    ensures { part.new ≡ padded (length part.old) from.now }
{
    strip::zero(part);
    part[..from.len()].copy_from_slice(from);
}

// Rooms of another length and a strip that no room can hold leave everything as it is.
pub fn put(rooms: &mut [u8], n: u32, strip: &[u8])
    ensures { rooms.new ≡ on_length rooms_size (filled_by n strip.now) rooms.old }
{
    if rooms.len() != ROOMS_SIZE {
        return;
    }
    if ROOM_SIZE < strip.len() {
        return;
    }
    let start = room_start(n);
    fill(strip, &mut rooms[start..start + ROOM_SIZE]);
}

// A room with nothing put into it is all zeros.
pub fn clear(rooms: &mut [u8], n: u32)
    ensures { rooms.new ≡ on_length rooms_size (λ l. cleared l n) rooms.old }
{
    put(rooms, n, &[]);
}
