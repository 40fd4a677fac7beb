// What a host in C sees: the S-box, expansion and the block on numbers and byte slices. Each answers with the refusal's number, 0 for done.
#![tactic(auto, unfolding(refusal::specs::Answer::first, refusal::specs::Part::on_length, entry_checks::specs::Checks::wrong_sbox_lengths, entry_checks::specs::Checks::sbox_checks, crate::specs::Entries::sbox_of, crate::specs::Entries::sbox_points_of, crate::specs::Entries::expand_of, crate::specs::Entries::directed_block_of))]

ghost use Rattle.std.specs.Prelude.{◌≡◌};
ghost use Rattle.refusal.specs.Answer.{answer_number};
ghost use Rattle.salcivorn.specs.Entries.{sbox_of, sbox_points_of, expand_of, directed_block_of};

use refusal::Refusal;

// C has two entries for the S-box; what both do is `sbox::substitute_in_place`, so two short functions stand here and no closure over five lent parts.
fn substitute(
    direction: u32,
    data: &mut [u8],
    mask: &mut [u8],
    record: &[u8],
) -> Result<(), Refusal>
    ensures { (answer_number result, («data».new, mask.new)) ≡ sbox_of direction «data».old mask.old «record».now }
{
    entry_checks::check_sbox(direction, data.len(), mask.len(), record.len())?;
    let way = entry_checks::direction_of(direction);
    let parts = sbox::record_of(record);
    sbox::substitute_in_place(way, &mut data[0], &mut mask[0], parts, &mut [])
}

#[unsafe(no_mangle)]
pub extern "C" fn salcivorn_sbox(
    direction: u32,
    data: &mut [u8],
    mask: &mut [u8],
    record: &[u8],
) -> u32
    ensures { (result, («data».new, mask.new)) ≡ sbox_of direction «data».old mask.old «record».now }
{
    refusal::answer_number(substitute(direction, data, mask, record))
}

fn substitute_points(
    direction: u32,
    data: &mut [u8],
    mask: &mut [u8],
    record: &[u8],
    points: &mut [u8],
) -> Result<(), Refusal>
    ensures { (answer_number result, («data».new, (mask.new, points.new))) ≡ sbox_points_of direction «data».old mask.old «record».now points.old }
{
    entry_checks::check_sbox(direction, data.len(), mask.len(), record.len())?;
    let way = entry_checks::direction_of(direction);
    refusal::check_length(points.len(), 62, Refusal::PointsLength)?;
    let parts = sbox::record_of(record);
    sbox::substitute_in_place(way, &mut data[0], &mut mask[0], parts, points)
}

#[unsafe(no_mangle)]
pub extern "C" fn salcivorn_sbox_points(
    direction: u32,
    data: &mut [u8],
    mask: &mut [u8],
    record: &[u8],
    points: &mut [u8],
) -> u32
    ensures { (result, («data».new, (mask.new, points.new))) ≡ sbox_points_of direction «data».old mask.old «record».now points.old }
{
    refusal::answer_number(substitute_points(direction, data, mask, record, points))
}

#[unsafe(no_mangle)]
pub extern "C" fn salcivorn_expand(key: &[u8], round_keys: &mut [u8]) -> u32
    ensures { (result, round_keys.new) ≡ expand_of key.now round_keys.old }
{
    refusal::answer_number(expansion::expand(key, round_keys))
}

fn serve(
    direction: u32,
    block: &mut [u8],
    mask: &mut [u8],
    round_keys: &[u8],
    strip: &mut [u8],
) -> Result<(), Refusal>
    ensures { (answer_number result, (block.new, (mask.new, strip.new))) ≡ directed_block_of direction block.old mask.old round_keys.now strip.old }
{
    entry_checks::check_direction(direction)?;
    let way = entry_checks::direction_of(direction);
    cipher::serve(way, block, mask, round_keys, strip)
}

#[unsafe(no_mangle)]
pub extern "C" fn salcivorn_block(
    direction: u32,
    block: &mut [u8],
    mask: &mut [u8],
    round_keys: &[u8],
    strip: &mut [u8],
) -> u32
    ensures { (result, (block.new, (mask.new, strip.new))) ≡ directed_block_of direction block.old mask.old round_keys.now strip.old }
{
    refusal::answer_number(serve(direction, block, mask, round_keys, strip))
}
