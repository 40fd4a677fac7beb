// Bytes, nibbles and pairs split into halves of so many bits, and joined, by shifts and masks. A const parameter has no type that could carry its bound.
ghost use Rattle.std.specs.Prelude.{◌≡◌, ◌≤◌};
ghost use Rattle.tower.specs.Tower.{hi, lo, join};

pub fn high<const BITS: u32>(x: u8) -> u8
    requires { BITS ≤ 4 }
    ensures { result ≡ hi BITS x }
{
    (x >> BITS) & ((1 << BITS) - 1)
}

pub fn low<const BITS: u32>(x: u8) -> u8
    requires { BITS ≤ 4 }
    ensures { result ≡ lo BITS x }
{
    x & ((1 << BITS) - 1)
}

pub fn joined<const BITS: u32>(h: u8, l: u8) -> u8
    requires { BITS ≤ 4 }
    ensures { result ≡ join BITS (lo BITS h) (lo BITS l) }
{
    (low::<BITS>(h) << BITS) | low::<BITS>(l)
}
