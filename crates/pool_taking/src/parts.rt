// A strip handed out of its room, with its number beside it.
ghost use Rattle.std.specs.Prelude.{◌≡◌, ◌<◌, length};
ghost use Rattle.pool_numbers.specs.Numbers.{number_bytes};
ghost use Rattle.pool_rooms.specs.Rooms.{rooms_size};
ghost use Rattle.pool_taking.specs.Taking.{handing};

pub fn write_number(n: u32, part: &mut [u8])
    requires { length part.old ≡ 4 }
    ensures { part.new ≡ number_bytes n }
{
    part.copy_from_slice(&pool_numbers::number_bytes(n));
}

// The strip that has n before it leaves its room, which is zeroed.
pub fn hand_out(rooms: &mut [u8], n: u32, number: &mut [u8], strip: &mut [u8])
    requires rooms_len { (length rooms.old ≡ rooms_size) × (length number.old ≡ 4) }
    requires strip_len { (length strip.old ≡ 676) × (n < 4294967295) }
    ensures { (rooms.new, (number.new, strip.new)) ≡ handing rooms.old n }
{
    strip.copy_from_slice(pool_rooms::room(rooms, n));
    pool_rooms::clear(rooms, n);
    write_number(n + 1, number);
}
