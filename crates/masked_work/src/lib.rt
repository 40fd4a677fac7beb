// The rounds of FIPS 197 on data and mask, one after the other, in each direction.
// Block, mask, round keys and strip go from call to call as the entry over C lends them; a struct of them would be made and taken apart for one private call in each direction.
#![tactic(auto)]

ghost use Rattle.std.specs.Prelude.{◌≡◌, ◌<◌};
ghost use Rattle.masked_rounds.specs.Rounds.{round_worked, masked_cipher, inv_round_worked, masked_inv_cipher};

use sbox::Direction;

// A round of 5.1, on data and mask; the round key goes to the data alone. Rounds count from 0, as the records of the strip do.
// Between the row shifts of the two parts stand the data's columns, so that no register goes from a data byte to its mask byte.
fn encrypt_round(
    block: &mut [u8],
    mask: &mut [u8],
    round_keys: &[u8],
    strip: &[u8],
    round: u8,
    rounds: u8,
)
    requires { round < rounds }
    ensures { (block.new, mask.new) ≡ round_worked round_keys.now strip.now rounds round (block.old, mask.old) }
{
    let last = round + 1 == rounds;
    masked_steps::substitute_bytes(Direction::Encrypt, block, mask, strip, round);
    aes::shift_rows(block);
    masked_steps::mix(block, last);
    aes::shift_rows(mask);
    masked_steps::mix(mask, last);
    aes::add_round_key(block, round_keys, (round + 1) as usize);
}

// 5.1 Cipher on data and mask.
pub fn encrypt_rounds(
    block: &mut [u8],
    mask: &mut [u8],
    round_keys: &[u8],
    strip: &[u8],
    rounds: u8,
)
    ensures { (block.new, mask.new) ≡ masked_cipher round_keys.now strip.now rounds (block.old, mask.old) }
{
    aes::add_round_key(block, round_keys, 0);
    for round in 0..rounds {
        encrypt_round(block, mask, round_keys, strip, round, rounds);
    }
}

// A round of 5.3, on data and mask, from its substitution to the rows of the next. The round keys are counted down.
// Between the two parts stands the round key, so that no register goes from a mask byte to its data byte.
fn decrypt_round(
    block: &mut [u8],
    mask: &mut [u8],
    round_keys: &[u8],
    strip: &[u8],
    round: u8,
    rounds: u8,
)
    requires { round < rounds }
    ensures { (block.new, mask.new) ≡ inv_round_worked round_keys.now strip.now rounds round (block.old, mask.old) }
{
    let last = round + 1 == rounds;
    masked_steps::substitute_bytes(Direction::Decrypt, block, mask, strip, round);
    masked_steps::restore(mask, last);
    aes::add_round_key(block, round_keys, (rounds - (round + 1)) as usize);
    masked_steps::restore(block, last);
}

// 5.3 InvCipher on data and mask: the rows go back before the substitution, so that a record is that of the position after it.
pub fn decrypt_rounds(
    block: &mut [u8],
    mask: &mut [u8],
    round_keys: &[u8],
    strip: &[u8],
    rounds: u8,
)
    ensures { (block.new, mask.new) ≡ masked_inv_cipher round_keys.now strip.now rounds (block.old, mask.old) }
{
    aes::inverse_shift_rows(mask);
    aes::add_round_key(block, round_keys, rounds as usize);
    aes::inverse_shift_rows(block);
    for done in 0..rounds {
        decrypt_round(block, mask, round_keys, strip, done, rounds);
    }
}
