// MixColumns of FIPS 197 and its inverse, on one part alone, data or mask, and the doubling that they and key expansion are made of.
#![tactic(auto)]

ghost use Rattle.std.specs.Prelude.{◌≡◌, length};
ghost use Rattle.fips197.specs.Field.{xtime};
ghost use Rattle.fips197.specs.Cipher.{mix_columns, inv_mix_columns};
ghost use Rattle.aes.specs.Steps.{on_state};
ghost use Rattle.columns.specs.Inner.{mix_byte, inv_mix_byte, byte_by, column_of, columns_of};

// 4.2 xtime, straight through: the bit that leaves multiplies the polynomial, so that no byte decides a jump.
pub fn double(b: u8) -> u8
    ensures { result ≡ xtime b }
{
    (b << 1) ^ ((b >> 7) * 0x1b)
}

// 5.1.3 a byte of a mixed column: a is the byte of its own row, the others those of the rows below it, in turn.
fn mix_byte(a: u8, b: u8, c: u8, d: u8) -> u8
    ensures { result ≡ mix_byte a b c d }
{
    double(a) ^ (double(b) ^ b) ^ c ^ d
}

// It is a call of its own, so that the compiler makes no vector of a state: a vector register would go from the data's columns to the mask's.
// A column is lent as a part of the state, as the rules have it: an array in its place would be a case more at each of four calls, which the bound rules out.
#[inline(never)]
fn mix_column(column: &mut [u8])
    requires { length column.old ≡ 4 }
    ensures { column.new ≡ column_of mix_byte column.old }
{
    let a = column[0];
    let b = column[1];
    let c = column[2];
    let d = column[3];
    column[0] = mix_byte(a, b, c, d);
    column[1] = mix_byte(b, c, d, a);
    column[2] = mix_byte(c, d, a, b);
    column[3] = mix_byte(d, a, b, c);
}

// 5.3.3 a column of 0e a + 0b b + 0d c + 09 d: what has a term x^3 is doubled three times, x^2 twice, x once. The bytes share their doublings, and it is
// a call of its own, so that the compiler makes no vector of a state: a vector register would go from the data's columns to the mask's.
#[inline(never)]
fn inverse_mix_column(column: &mut [u8])
    requires { length column.old ≡ 4 }
    ensures { column.new ≡ column_of inv_mix_byte column.old }
{
    let a = column[0];
    let b = column[1];
    let c = column[2];
    let d = column[3];
    let sum = a ^ b ^ c ^ d;
    let x = double(sum);
    let y = double(x ^ a ^ c);
    let z = double(y ^ a ^ b);
    let w = double(x ^ y ^ b ^ c);
    column[0] = z ^ sum ^ a;
    column[1] = w ^ sum ^ b;
    column[2] = z ^ x ^ sum ^ c;
    column[3] = w ^ x ^ sum ^ d;
}

// A column of either direction. The direction is no secret, so it may decide a jump; a closure in its place would need a contract over a lent column.
fn mix_column_by(column: &mut [u8], inverse: bool)
    requires { length column.old ≡ 4 }
    ensures { column.new ≡ column_of (byte_by inverse) column.old }
{
    if inverse {
        inverse_mix_column(column)
    } else {
        mix_column(column)
    }
}

// Each column is rewritten where it stands.
fn mix_state_columns(part: &mut [u8], inverse: bool)
    requires { length part.old ≡ 16 }
    ensures { part.new ≡ columns_of (byte_by inverse) part.old }
{
    mix_column_by(&mut part[0..4], inverse);
    mix_column_by(&mut part[4..8], inverse);
    mix_column_by(&mut part[8..12], inverse);
    mix_column_by(&mut part[12..16], inverse);
}

// 5.1.3 MixColumns
pub fn mix_columns(part: &mut [u8])
    ensures { part.new ≡ on_state mix_columns part.old }
{
    if part.len() == 16 {
        mix_state_columns(part, false);
    }
}

// 5.3.3 InvMixColumns
pub fn inverse_mix_columns(part: &mut [u8])
    ensures { part.new ≡ on_state inv_mix_columns part.old }
{
    if part.len() == 16 {
        mix_state_columns(part, true);
    }
}
