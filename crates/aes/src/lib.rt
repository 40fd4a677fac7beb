// ShiftRows, its inverse and AddRoundKey of FIPS 197, each on one part alone, data or mask.
#![tactic(auto)]

ghost use Rattle.std.specs.Prelude.{◌≡◌, ◌<◌, length};
ghost use Rattle.fips197.specs.Cipher.{◌⊞◌, shift_rows, inv_shift_rows};
ghost use Rattle.aes.specs.Steps.{on_state, keyed};
ghost use Rattle.aes.specs.Inner.{row_from};

// A row is read round from the place that its first byte comes from. Places are no secret, so they may be computed.
// It is a call of its own, so that a register goes from the data's last row to the mask's first, and never from a data byte to its mask byte.
#[inline(never)]
fn turn_row(part: &mut [u8], row: usize, from: usize)
    requires { (length part.old ≡ 16) × ((row < 4) × (from < 16)) }
    ensures { part.new ≡ row_from row from part.old }
{
    let a = part[from];
    let b = part[(from + 4) % 16];
    let c = part[(from + 8) % 16];
    let d = part[(from + 12) % 16];
    part[row] = a;
    part[row + 4] = b;
    part[row + 8] = c;
    part[row + 12] = d;
}

// 5.1.2 ShiftRows. It and its inverse go by the names of the standard; what both do is `turn_row`.
pub fn shift_rows(part: &mut [u8])
    ensures { part.new ≡ on_state shift_rows part.old }
{
    if part.len() == 16 {
        turn_row(part, 1, 5);
        turn_row(part, 2, 10);
        turn_row(part, 3, 15);
    }
}

// 5.3.1 InvShiftRows
pub fn inverse_shift_rows(part: &mut [u8])
    ensures { part.new ≡ on_state inv_shift_rows part.old }
{
    if part.len() == 16 {
        turn_row(part, 1, 13);
        turn_row(part, 2, 10);
        turn_row(part, 3, 7);
    }
}

// The sum of two parts of one length, byte by byte.
fn add_key(part: &mut [u8], key: &[u8])
    requires { length part.old ≡ length key.now }
    ensures { part.new ≡ part.old ⊞ key.now }
{
    for i in 0..part.len() {
        part[i] ^= key[i];
    }
}

// 5.1.4 AddRoundKey. The round is held against the number of round keys first, so that its product cannot overflow.
pub fn add_round_key(part: &mut [u8], keys: &[u8], round: usize)
    ensures { part.new ≡ keyed part.old keys.now round }
{
    if part.len() != 16 {
        return;
    }
    if keys.len() / 16 <= round {
        return;
    }
    let at = 16 * round;
    add_key(part, &keys[at..at + 16]);
}
