// The tower GF(((2^2)^2)^2): pairs, nibbles and tower bytes, the changes of basis.
#![tactic(auto, unfolding(refusal::specs::Answer::first, crate::specs::Tower::pair_inverse, crate::specs::Tower::from_tower, crate::specs::Tower::to_tower))]

ghost use Rattle.std.specs.Prelude.{◌≡◌, ◌*◌, ◌<◌, length, [], ◌∷◌, ◌||◌, Ok, Err};
ghost use Rattle.refusal.specs.Answer.{first, above};
ghost use Rattle.tower.specs.Tower.{from_tower, to_tower, pair_product, pair_inverse, nibble_product, nibble_inverse, byte_product, byte_inverse, added};

use refusal::Refusal;

mod halves;
mod low;

// Three bytes of a strip: Q in the high nibble and T in the low nibble; S in tower form; r, from 0 to 3.
#[derive(Clone, Copy, Debug, PartialEq, Eq, Hash)]
pub struct Record {
    pub qt: u8,
    pub s: u8,
    pub r: u8,
}

const FROM_TOWER: [u8; 8] = [0x64, 0x78, 0x6e, 0x8c, 0x68, 0x29, 0xde, 0x60];

const TO_TOWER: [u8; 8] = [0x98, 0xf3, 0xf2, 0x48, 0x09, 0x81, 0xa9, 0xff];

// A column byte where the bit is set, else zero.
fn column_at(column: u8, bit: u8) -> u8
    requires { bit < 2 }
    ensures { result ≡ bit * column }
{
    column & (bit * 255)
}

// A change of basis of one part alone: the column bytes of its set bits added, bit 7's first. It is a call of its own, so that each part goes through
// the same registers, and the record's S, which is changed between the mask and the data, leaves none of the mask in them.
#[inline(never)]
fn change(columns: &[u8; 8], x: u8) -> u8
    ensures { result ≡ added columns.now x }
{
    let mut sum = 0;
    for i in 0..8 {
        let bit = (x >> (7 - i as u32)) % 2;
        sum ^= column_at(columns[i], bit);
    }
    sum
}

// Tower to AES, on one part alone, data or mask.
pub fn from_tower(x: u8) -> u8
    ensures { result ≡ from_tower x }
{
    change(&FROM_TOWER, x)
}

// AES to tower, on one part alone, data or mask.
pub fn to_tower(x: u8) -> u8
    ensures { result ≡ to_tower x }
{
    change(&TO_TOWER, x)
}

// The inverse of the low nibble. `byte_inverse` is the same one level up; a trait that gives both levels their product, square and inverse would be longer than the two.
fn invert_nibble(x: u8) -> u8
    ensures { result ≡ nibble_inverse x }
{
    let x1 = halves::high::<2>(x);
    let x0 = halves::low::<2>(x);
    let p = low::pair_times(x1, x0);
    let s = low::pair_square(x1 ^ x0);
    let b = low::exchange(p ^ s);
    let h = low::pair_times(x0, b);
    let l = low::pair_times(x1, b);
    halves::joined::<2>(h, l)
}

pub fn byte_product(x: u8, y: u8) -> u8
    ensures { result ≡ byte_product x y }
{
    let x1 = halves::high::<4>(x);
    let x0 = halves::low::<4>(x);
    let y1 = halves::high::<4>(y);
    let y0 = halves::low::<4>(y);
    let m = low::nibble_times(x1 ^ x0, y1 ^ y0);
    let k = low::nibble_times(1, m);
    let h = low::nibble_times(x1, y1);
    let l = low::nibble_times(x0, y0);
    halves::joined::<4>(h ^ k, l ^ k)
}

pub fn byte_inverse(x: u8) -> u8
    ensures { result ≡ byte_inverse x }
{
    let x1 = halves::high::<4>(x);
    let x0 = halves::low::<4>(x);
    let p = low::nibble_times(x1, x0);
    let s = low::nibble_square(x1 ^ x0);
    let b = invert_nibble(p ^ s);
    let h = low::nibble_times(x0, b);
    let l = low::nibble_times(x1, b);
    halves::joined::<4>(h, l)
}

// Pairs and nibbles have a call each, by the names of the rules; a trait over both levels would be longer than these four bodies of two lines.
pub fn pair_product(x: u8, y: u8) -> Result<u8, Refusal>
    ensures { result ≡ first ((1, (above 3 x || above 3 y)) ∷ []) Err (Ok (pair_product x y)) }
{
    refusal::check_both(x, y, 3, Refusal::Operand)?;
    Ok(low::pair_times(x, y))
}

pub fn pair_inverse(x: u8) -> Result<u8, Refusal>
    ensures { result ≡ first ((1, above 3 x) ∷ []) Err (Ok (pair_inverse x)) }
{
    refusal::check_most(x, 3, Refusal::Operand)?;
    Ok(low::exchange(x))
}

pub fn nibble_product(x: u8, y: u8) -> Result<u8, Refusal>
    ensures { result ≡ first ((1, (above 15 x || above 15 y)) ∷ []) Err (Ok (nibble_product x y)) }
{
    refusal::check_both(x, y, 15, Refusal::Operand)?;
    Ok(low::nibble_times(x, y))
}

pub fn nibble_inverse(x: u8) -> Result<u8, Refusal>
    ensures { result ≡ first ((1, above 15 x) ∷ []) Err (Ok (nibble_inverse x)) }
{
    refusal::check_most(x, 15, Refusal::Operand)?;
    Ok(invert_nibble(x))
}
