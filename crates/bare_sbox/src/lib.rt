// The S-box on a bare byte, for key expansion; and the linear parts of its affine step and of the inverse, which the masked S-box takes too.
#![tactic(auto)]

ghost use Rattle.std.specs.Prelude.{◌≡◌};
ghost use Rattle.fips197.specs.Cipher.{linear, inv_linear, sbox};

// The linear part of the affine step, on one part alone: the byte and its turns by one to four places. Each sum is turned on by one place, so that
// this takes two registers, and a call of its own keeps them for it: no register goes from a part to its mask.
#[inline(never)]
pub fn linear(x: u8) -> u8
    ensures { result ≡ linear x }
{
    let fourth = x ^ ((x << 1) | (x >> 7));
    let third = x ^ ((fourth << 1) | (fourth >> 7));
    let second = x ^ ((third << 1) | (third >> 7));
    x ^ ((second << 1) | (second >> 7))
}

// The linear part of the inverse affine step, on one part alone, likewise: the turns by one, three and six places.
#[inline(never)]
pub fn inverse_linear(x: u8) -> u8
    ensures { result ≡ inv_linear x }
{
    let sixth = x ^ ((x << 3) | (x >> 5));
    let third = x ^ ((sixth << 2) | (sixth >> 6));
    (third << 1) | (third >> 7)
}

// The S-box on a bare byte, for key expansion alone, whose bytes have no mask.
pub fn substitute(b: u8) -> u8
    ensures { result ≡ sbox b }
{
    let entered = tower::to_tower(b);
    let inverted = tower::byte_inverse(entered);
    linear(tower::from_tower(inverted)) ^ 0x63
}
