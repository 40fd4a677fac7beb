// The masked inversion on tower bytes, with and without its 62 points.
#![tactic(auto, unfolding(refusal::specs::Answer::first, refusal::specs::Part::on_length))]

ghost use Rattle.std.specs.Prelude.{◌≡◌};
ghost use Rattle.inversion.specs.Answers.{inverted_into, inverted, inverted_with_points};

use refusal::Refusal;
use tower::Record;

// The masked inverse of a masked tower byte, under the mask S. The points are left in a buffer of 62 bytes; any other is left as it is.
#[inline(always)]
pub fn invert_into(masked: u8, mask: u8, record: Record, points: &mut [u8]) -> Result<u8, Refusal>
    ensures { (result, points.new) ≡ inverted_into masked mask «record» points.old }
{
    refusal::check_most(record.r, 3, Refusal::ThirdByte)?;
    Ok(cells::invert_points(masked, mask, record, points))
}

// The masked inversion: the masked inverse and its mask S, the points left nowhere.
pub fn invert(masked: u8, mask: u8, record: Record) -> Result<(u8, u8), Refusal>
    ensures { result ≡ inverted masked mask «record» }
{
    Ok((invert_into(masked, mask, record, &mut [])?, record.s))
}

// The same, its 62 points left in the lent buffer.
pub fn invert_points(
    masked: u8,
    mask: u8,
    record: Record,
    points: &mut [u8],
) -> Result<(u8, u8), Refusal>
    ensures { (result, points.new) ≡ inverted_with_points masked mask «record» points.old }
{
    refusal::check_length(points.len(), 62, Refusal::PointsLength)?;
    Ok((invert_into(masked, mask, record, points)?, record.s))
}
