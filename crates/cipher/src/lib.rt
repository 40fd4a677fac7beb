// The masked block calls: every check first, then the rounds of FIPS 197 on data and mask, then the strip is wiped.
#![tactic(auto)]

ghost use Rattle.std.specs.Prelude.{◌≡◌, ◌<◌, ◌≤◌, length};
ghost use Rattle.sbox.specs.declared.Direction.TheVariants as way;
ghost use Rattle.block_checks.specs.Checks.{rounds_in};
ghost use Rattle.cipher.specs.Block.{block_of};
ghost use Rattle.cipher.specs.Inner.{worked_in};

use refusal::Refusal;
use sbox::Direction;

// The rounds of a direction, as many as there are round keys for. The parts go on as they are lent.
fn work(direction: Direction, block: &mut [u8], mask: &mut [u8], round_keys: &[u8], strip: &[u8])
    requires { (16 ≤ length round_keys.now) × (rounds_in (length round_keys.now) < 256) }
    ensures { (block.new, mask.new) ≡ worked_in direction round_keys.now strip.now (block.old, mask.old) }
{
    let rounds = (round_keys.len() / 16 - 1) as u8;
    match direction {
        Direction::Encrypt => masked_work::encrypt_rounds(block, mask, round_keys, strip, rounds),
        Direction::Decrypt => masked_work::decrypt_rounds(block, mask, round_keys, strip, rounds),
    }
}

// A block in either direction: everything is checked before a byte changes, and the strip that served is wiped.
pub fn serve(
    direction: Direction,
    block: &mut [u8],
    mask: &mut [u8],
    round_keys: &[u8],
    strip: &mut [u8],
) -> Result<(), Refusal>
    ensures { (result, (block.new, (mask.new, strip.new))) ≡ block_of direction block.old mask.old round_keys.now strip.old }
{
    block_checks::check(block.len(), mask.len(), round_keys.len(), strip)?;
    work(direction, block, mask, round_keys, strip);
    strip::wipe(strip);
    Ok(())
}

// Encrypts a masked block: block and mask are rewritten where they stand.
pub fn encrypt(
    block: &mut [u8],
    mask: &mut [u8],
    round_keys: &[u8],
    strip: &mut [u8],
) -> Result<(), Refusal>
    ensures { (result, (block.new, (mask.new, strip.new))) ≡ block_of way.Encrypt block.old mask.old round_keys.now strip.old }
{
    serve(Direction::Encrypt, block, mask, round_keys, strip)
}

// Decrypts a masked block likewise.
pub fn decrypt(
    block: &mut [u8],
    mask: &mut [u8],
    round_keys: &[u8],
    strip: &mut [u8],
) -> Result<(), Refusal>
    ensures { (result, (block.new, (mask.new, strip.new))) ≡ block_of way.Decrypt block.old mask.old round_keys.now strip.old }
{
    serve(Direction::Decrypt, block, mask, round_keys, strip)
}
