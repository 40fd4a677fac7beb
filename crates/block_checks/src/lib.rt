// What a block call refuses, in its order: from the lengths of its parts and the strip.
#![tactic(auto, unfolding(refusal::specs::Answer::first))]

ghost use Rattle.std.specs.Prelude.{◌≡◌, Ok, Err};
ghost use Rattle.refusal.specs.Answer.{first};
ghost use Rattle.block_checks.specs.Checks.{checks};

use refusal::Refusal;

// Every refusal of a block call, from the lengths of its parts and the strip, of which nothing can be changed here.
pub fn check(block: usize, mask: usize, round_keys: usize, strip: &[u8]) -> Result<(), Refusal>
    ensures { result ≡ first (checks block mask round_keys strip.now) Err (Ok tt) }
{
    refusal::check_length(block, 16, Refusal::NotLent)?;
    refusal::check_length(mask, 16, Refusal::NotLent)?;
    refusal::check_lengths(round_keys, &[176, 208, 240], Refusal::RoundKeysLength)?;
    let rounds = round_keys / 16 - 1;
    strip_checks::check(strip, (4 * (rounds - 6)) as u8)
}
