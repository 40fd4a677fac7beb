// The vector of a line: how it is read, and the turns in which it has to give its answer.
ghost use Rattle.std.specs.Prelude.{◌≡◌, ◌+◌, ◌*◌, ◌≤◌, length};

use crate::generator::Generator;
use hex::FromHex;
use sbox::Direction;

// The block that goes in, the one that has to come out, and the round keys; from the line that they stand on the masks and strips of the turns are made.
#[derive(Clone, Copy)]
struct Vector<'a> {
    line: &'a [u8],
    direction: Direction,
    key_size: usize,
    round_keys: &'a [u8],
    input: [u8; 16],
    expected: [u8; 16],
    ghost key_fits: { key_size ≤ 32 },
}

// Adds a mask to a block, or takes it off.
fn add(block: &mut [u8; 16], mask: &[u8; 16]) {
    for (byte, masking) in block.iter_mut().zip(mask) {
        *byte ^= *masking;
    }
}

// A strip of generated records, the third byte of each below 4, as its form asks; its length tells the key size.
fn make_strip(strip: &mut [u8], key_size: usize, generator: &mut Generator)
    requires key_size { key_size ≤ 32 }
    requires size { length strip.old ≡ 12 * key_size + 292 }
{
    let [high, low] = ((strip.len() - 2) as u16).to_be_bytes();
    generator.fill(strip);
    for record in strip[4..].chunks_exact_mut(3) {
        record[2] %= 4;
    }
    strip[..4].copy_from_slice(&[high, low, 1, key_size as u8]);
}

impl Vector<'_> {
    // One turn, under a mask and a strip of its own: the input goes in under the mask, the answer has to be right when its mask is taken off, and the strip has to be spent.
    fn passes_turn(&self, turn: u64) -> bool {
        let mut generator = Generator::seeded(self.line, turn);
        let mut mask = [0u8; 16];
        let mut strip = [0u8; 676];
        let strip = &mut strip[..12 * self.key_size + 292];
        let mut block = self.input;
        generator.fill(&mut mask);
        make_strip(strip, self.key_size, &mut generator);
        add(&mut block, &mask);
        let answer = cipher::serve(
            self.direction,
            &mut block,
            &mut mask,
            self.round_keys,
            strip,
        );
        if answer.is_err() {
            return false;
        }
        add(&mut block, &mask);
        strip[2] == 0 && block == self.expected
    }
}

fn direction(letter: &[u8]) -> Option<Direction> {
    match letter {
        b"E" => Some(Direction::Encrypt),
        b"D" => Some(Direction::Decrypt),
        _ => None,
    }
}

// Whether the vector of a line passes its turns; none where the line is no vector. A key size that AES does not have is refused by its expansion.
fn answers(line: &[u8]) -> Option<bool> {
    let mut fields = line.split(|byte| *byte == b' ');
    let direction = direction(fields.next()?)?;
    let key_digits = fields.next()?;
    let input = <[u8; 16]>::from_hex(fields.next()?).ok()?;
    let expected = <[u8; 16]>::from_hex(fields.next()?).ok()?;
    if fields.next().is_some() {
        return None;
    }
    let mut key = [0u8; 32];
    let key = key.get_mut(..key_digits.len() / 2)?;
    hex::decode_to_slice(key_digits, key).ok()?;
    let mut round_keys = [0u8; 240];
    let round_keys = &mut round_keys[..4 * key.len() + 112];
    expansion::expand(key, round_keys).ok()?;
    let vector = Vector {
        line,
        direction,
        key_size: key.len(),
        round_keys,
        input,
        expected,
    };
    Some((0..3).all(|turn| vector.passes_turn(turn)))
}

// Whether a line is a vector that passes.
pub fn passes(line: &[u8]) -> bool {
    answers(line).unwrap_or(false)
}
