// Words of four bytes, as key expansion makes them: RotWord, SubWord, the sum, and the powers of x for Rcon.
#![tactic(auto, unfolding(fips197::specs::Cipher::rot_word))]

ghost use Rattle.std.specs.Prelude.{◌≡◌};
ghost use Rattle.fips197.specs.Cipher.{◌⊞◌, rot_word, sub_word, power};

// The byte x to the power j, doubled that often from 01.
pub fn power(j: usize) -> u8
    ensures { result ≡ power j }
{
    let mut b: u8 = 0x01;
    for _ in 0..j {
        b = columns::double(b);
    }
    b
}

// 5.2 RotWord
pub fn rot_word(a: [u8; 4]) -> [u8; 4]
    ensures { result ≡ rot_word a }
{
    [a[1], a[2], a[3], a[0]]
}

// 5.2 SubWord
pub fn sub_word(a: [u8; 4]) -> [u8; 4]
    ensures { result ≡ sub_word a }
{
    [
        bare_sbox::substitute(a[0]),
        bare_sbox::substitute(a[1]),
        bare_sbox::substitute(a[2]),
        bare_sbox::substitute(a[3]),
    ]
}

// The sum of two words, byte by byte.
pub fn sum(a: [u8; 4], b: [u8; 4]) -> [u8; 4]
    ensures { result ≡ a ⊞ b }
{
    [a[0] ^ b[0], a[1] ^ b[1], a[2] ^ b[2], a[3] ^ b[3]]
}
