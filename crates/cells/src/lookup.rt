// `tower` has the halves, squares and the exchange of bytes; here values have 32 bits and other forms, since those of 8 bits leaked (docs/DECISIONS.md).
// Products and squares by lookup in rows that stand in one register each: total, straight through, with no table in memory. Values have 32 bits, so that nothing of
// a row is left above a value that was read from it.
#![tactic(auto, unfolding(tower::specs::Tower::hi, tower::specs::Tower::lo, tower::specs::Tower::join))]

ghost use Rattle.std.specs.Prelude.{◌≡◌, ◌≤◌};
ghost use Rattle.tower.specs.Tower.{hi, lo, join, scaled_square, exchange, pair_product, nibble_product};
ghost use Rattle.cells.specs.Cells.{entry, RowOf};

// Number y of a row. A shift by 0, which leaves the flags as they were, does not occur.
pub fn entry(row: u64, y: u32) -> u32
    ensures { result ≡ entry row y }
{
    ((row >> (63 - y % 16 * 4)) % 16) as u32
}

// The row of x in the product table of nibbles: the rows of its set bits added.
pub fn row(x: u32) -> u64
    ensures { RowOf (nibble_product x) result }
{
    let v = u64::from(x % 16);
    (v * 2 % 4) * 0x1e794b2eb4d3e184
        ^ (v % 4 - v % 2) * 0x279e8d37d86172c8
        ^ (v % 8 - v % 4) * 0x0b5fb0e4c7937c28
        ^ (v - v % 8) * 0x0af56c93b14ed728
}

// The row of x in the product table of pairs, which is one of four numbers four times.
pub fn pair_row(x: u32) -> u64
    ensures { RowOf (pair_product x) result }
{
    let v = u64::from(x % 4);
    (v * 2 % 4) * 0x08c408c408c408c4 ^ (v - v % 2) * 0x0c480c480c480c48
}

// N times the square of a nibble
pub fn nibble_square(x: u32) -> u32
    ensures { result ≡ scaled_square nibble_product 1 x }
{
    entry(0x5b6c1f2a794e3d08, x)
}

// n times the square of a pair
pub fn pair_square(x: u32) -> u32
    ensures { result ≡ scaled_square pair_product 2 x }
{
    let v = x % 4;
    v ^ (v / 2)
}

pub fn exchange(x: u32) -> u32
    ensures { result ≡ exchange x }
{
    x % 4 * 5 / 2 % 4
}

// The high half of a number of BITS + BITS bits. A const parameter has no type that could carry its bound.
pub fn high<const BITS: u32>(x: u32) -> u32
    requires { BITS ≤ 4 }
    ensures { result ≡ hi BITS x }
{
    (x >> BITS) % (1 << BITS)
}

pub fn low<const BITS: u32>(x: u32) -> u32
    requires { BITS ≤ 4 }
    ensures { result ≡ lo BITS x }
{
    x % (1 << BITS)
}

pub fn joined<const BITS: u32>(high: u32, low: u32) -> u32
    requires { BITS ≤ 4 }
    ensures { result ≡ join BITS (lo BITS «high») (lo BITS «low») }
{
    high % (1 << BITS) * (1 << BITS) + low % (1 << BITS)
}

pub fn high_nibble(x: u8) -> u32
    ensures { result ≡ hi 4 x }
{
    high::<4>(u32::from(x))
}

pub fn low_nibble(x: u8) -> u32
    ensures { result ≡ lo 4 x }
{
    low::<4>(u32::from(x))
}

pub fn join_nibbles(high: u32, low: u32) -> u8
    ensures { result ≡ join 4 (lo 4 «high») (lo 4 «low») }
{
    joined::<4>(high, low) as u8
}
