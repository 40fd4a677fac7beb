// The masked S-box and its inverse, with and without points.
#![tactic(auto, unfolding(refusal::specs::Answer::first, fips197::specs::Field::field, crate::specs::Sbox::ways, refusal::specs::Part::on_length))]

ghost use Rattle.std.specs.Prelude.{◌≡◌};
ghost use Rattle.sbox.specs.Sbox.{record_of, enter, leave, substituted_in_place, substituted, substituted_with_points};

use refusal::Refusal;
use tower::Record;

#[derive(Clone, Copy, Debug, PartialEq, Eq, Hash)]
pub enum Direction {
    Encrypt,
    Decrypt,
}

// A record from the part of a strip that holds its three bytes; those that are not there count as zero.
pub fn record_of(part: &[u8]) -> Record
    ensures { result ≡ record_of part.now }
{
    Record {
        qt: part.get(0).copied().unwrap_or(0),
        s: part.get(1).copied().unwrap_or(0),
        r: part.get(2).copied().unwrap_or(0),
    }
}

// One part on its way to the inversion, with the constant that is its own: 05 for the data, none for the mask.
#[inline(always)]
fn enter(direction: Direction, x: u8, constant: u8) -> u8
    ensures { result ≡ enter direction constant x }
{
    match direction {
        Direction::Encrypt => tower::to_tower(x),
        Direction::Decrypt => tower::to_tower(bare_sbox::inverse_linear(x) ^ constant),
    }
}

// One part on its way back, with the constant that is its own: 63 for the data, none for the mask.
#[inline(always)]
fn leave(direction: Direction, x: u8, constant: u8) -> u8
    ensures { result ≡ leave direction constant x }
{
    match direction {
        Direction::Encrypt => bare_sbox::linear(tower::from_tower(x)) ^ constant,
        Direction::Decrypt => tower::from_tower(x),
    }
}

// The S-box on a masked byte and its mask, which are rewritten where they stand: each goes in and comes back on its own way, and they meet in the inversion alone.
// The inversion's points are left in a buffer of 62 bytes; any other is left as it is.
// The mask's way back depends on the record alone, so it is taken and stored apart from the data's, and before it: between mask and data every register holds the record's S, and none is left for the outgoing mask when the new data byte has come.
// The record is checked first, so that the compiler leaves the three ways in this order; and it is a call of its own, which answers no two bytes, since they would come in one word.
#[inline(never)]
pub fn substitute_in_place(
    direction: Direction,
    data: &mut u8,
    mask: &mut u8,
    record: Record,
    points: &mut [u8],
) -> Result<(), Refusal>
    ensures { (result, («data».new, (mask.new, points.new))) ≡ substituted_in_place direction «data».old mask.old «record» points.old }
{
    refusal::check_most(record.r, 3, Refusal::ThirdByte)?;
    let m = enter(direction, *mask, 0x00);
    *mask = leave(direction, record.s, 0x00);
    let a = enter(direction, *data, 0x05);
    let inverse = inversion::invert_into(a, m, record, points)?;
    *data = leave(direction, inverse, 0x63);
    Ok(())
}

// The same on two bytes that come back beside each other, the points left nowhere.
pub fn substitute(
    direction: Direction,
    data: u8,
    mask: u8,
    record: Record,
) -> Result<(u8, u8), Refusal>
    ensures { result ≡ substituted direction «data» mask «record» }
{
    let (mut data, mut mask) = (data, mask);
    substitute_in_place(direction, &mut data, &mut mask, record, &mut [])?;
    Ok((data, mask))
}

// The same, the inversion's 62 points left in the lent buffer.
pub fn substitute_points(
    direction: Direction,
    data: u8,
    mask: u8,
    record: Record,
    points: &mut [u8],
) -> Result<(u8, u8), Refusal>
    ensures { (result, points.new) ≡ substituted_with_points direction «data» mask «record» points.old }
{
    refusal::check_length(points.len(), 62, Refusal::PointsLength)?;
    let (mut data, mut mask) = (data, mask);
    substitute_in_place(direction, &mut data, &mut mask, record, points)?;
    Ok((data, mask))
}
