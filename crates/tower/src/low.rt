// The operations of pairs and nibbles on the low bits of bytes: total, straight through, with no jump on an operand.
ghost use Rattle.std.specs.Prelude.{◌≡◌};
ghost use Rattle.tower.specs.Tower.{scaled_square, exchange, pair_product, nibble_product};

pub fn exchange(x: u8) -> u8
    ensures { result ≡ exchange x }
{
    ((x & 1) << 1) | ((x >> 1) & 1)
}

pub fn pair_times(x: u8, y: u8) -> u8
    ensures { result ≡ pair_product x y }
{
    let v = x % 4;
    let w = y % 4;
    let k = (v ^ (v >> 1)) & (w ^ (w >> 1)) & 1;
    (v & w) ^ k ^ (k << 1)
}

// n times the square of a pair
pub fn pair_square(x: u8) -> u8
    ensures { result ≡ scaled_square pair_product 2 x }
{
    ((x >> 1) % 2) * 3 ^ (x % 2)
}

// x times 8, 4, 2 and 1 stand side by side in sixteen bits; those of the set bits of y are kept and added.
pub fn nibble_times(x: u8, y: u8) -> u8
    ensures { result ≡ nibble_product x y }
{
    let v = (x % 16) as u32;
    let w = (y % 16) as u32;
    let l = (v % 2) * 0xa597
        ^ ((v >> 1) % 2) * 0xfae9
        ^ ((v >> 2) % 2) * 0x6da5
        ^ ((v >> 3) % 2) * 0xb6fa;
    let t = w ^ (w << 6);
    let u = (t ^ (t << 3)) & 0x1111;
    let s = u | (u << 1);
    let p = l & (s | (s << 2));
    let f = p ^ (p >> 8);
    ((f ^ (f >> 4)) % 16) as u8
}

// N times the square of a nibble
pub fn nibble_square(x: u8) -> u8
    ensures { result ≡ scaled_square nibble_product 1 x }
{
    (x % 2) * 11 ^ ((x >> 1) % 2) * 6 ^ ((x >> 2) % 2) * 8 ^ ((x >> 3) % 2) * 4
}
