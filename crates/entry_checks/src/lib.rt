// What the entries for a host in C check before all else: the number of the direction, and the lengths that the S-box is lent.
#![tactic(auto, unfolding(refusal::specs::Answer::first, crate::specs::Checks::way, crate::specs::Checks::wrong_sbox_lengths, crate::specs::Checks::sbox_checks))]

ghost use Rattle.std.specs.Prelude.{◌≡◌, Ok, Err};
ghost use Rattle.refusal.specs.Refusal.{refusal};
ghost use Rattle.refusal.specs.Answer.{refused_if, first};
ghost use Rattle.entry_checks.specs.Checks.{no_direction, way, sbox_checks};

use refusal::Refusal;
use sbox::Direction;

// 13: over C a direction is a number.
pub fn check_direction(direction: u32) -> Result<(), Refusal>
    ensures { result ≡ refused_if (refusal 13) (no_direction direction) }
{
    match direction {
        0 | 1 => Ok(()),
        _ => Err(Refusal::NoDirection),
    }
}

// 0 encrypts, 1 decrypts. It has a direction for every number, so it is no TryFrom; 13 was asked before.
pub fn direction_of(direction: u32) -> Direction
    ensures { result ≡ way direction }
{
    match direction {
        0 => Direction::Encrypt,
        _ => Direction::Decrypt,
    }
}

// 13 and 6, with which both forms of the S-box begin.
pub fn check_sbox(direction: u32, data: usize, mask: usize, record: usize) -> Result<(), Refusal>
    ensures { result ≡ first (sbox_checks direction «data» mask «record») Err (Ok tt) }
{
    check_direction(direction)?;
    refusal::check_length(data, 1, Refusal::NotLent)?;
    refusal::check_length(mask, 1, Refusal::NotLent)?;
    refusal::check_length(record, 3, Refusal::NotLent)
}
