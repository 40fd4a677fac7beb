// The steps of a masked round: SubBytes on data and mask together, and on each part alone what follows it. Each is total.
#![tactic(auto, unfolding(crate::specs::Steps::except_last, crate::specs::Steps::restored, crate::specs::Steps::record_at))]

ghost use Rattle.std.specs.Prelude.{◌≡◌};
ghost use Rattle.fips197.specs.Cipher.{mix_columns};
ghost use Rattle.aes.specs.Steps.{on_state};
ghost use Rattle.masked_steps.specs.Steps.{record_at, masked_sub_bytes, except_last, restored};

use sbox::Direction;
use tower::Record;

// A record, read from the part of the strip where it stands; zeros where none stands.
fn record_at(strip: &[u8], index: usize) -> Record
    ensures { result ≡ record_at strip.now index }
{
    sbox::record_of(strip::record(strip, index))
}

// Every byte of the state through its S-box, each with the record of its position in this round of the work.
// A byte whose record is refused stays as it is; in a block none is, since every record was checked.
pub fn substitute_bytes(
    direction: Direction,
    block: &mut [u8],
    mask: &mut [u8],
    strip: &[u8],
    round: u8,
)
    ensures { (block.new, mask.new) ≡ masked_sub_bytes direction strip.now round (block.old, mask.old) }
{
    if block.len() != 16 {
        return;
    }
    if mask.len() != 16 {
        return;
    }
    for position in 0..16 {
        let record = record_at(strip, 16 * (round as usize) + position);
        let _ = sbox::substitute_in_place(
            direction,
            &mut block[position],
            &mut mask[position],
            record,
            &mut [],
        );
    }
}

// Every round but the last mixes the columns of each part. Which it is may be any, since the call promises both (docs/PROMISES.md).
pub fn mix(part: &mut [u8], last: bool)
    ensures { part.new ≡ except_last last (on_state mix_columns) part.old }
{
    if !last {
        columns::mix_columns(part);
    }
}

// Likewise every round but the last mixes the columns of each part back, and shifts back the rows, with which the next round begins.
pub fn restore(part: &mut [u8], last: bool)
    ensures { part.new ≡ except_last last restored part.old }
{
    if !last {
        columns::inverse_mix_columns(part);
        aes::inverse_shift_rows(part);
    }
}
