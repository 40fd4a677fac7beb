// What is refused of a strip, in its order: 7, 11, 8, 9, 12, 10.
#![tactic(auto, unfolding(refusal::specs::Answer::first, strip::specs::Strip::bad_framing, strip::specs::Strip::wrong_record_bytes))]

ghost use Rattle.std.specs.Prelude.{◌≡◌, ◌≤◌, length, Ok, Err};
ghost use Rattle.refusal.specs.Refusal.{refusal};
ghost use Rattle.refusal.specs.Answer.{refused_if, first, none_of};
ghost use Rattle.strip.specs.Strip.{key_size, wrong_record_bytes, bad_record, check_list, form_of, own_form_of};

use refusal::Refusal;

// The key size that a strip names; what is too short to name one has key size 0.
fn key_size_of(strip: &[u8]) -> usize
    ensures { result ≡ key_size strip.now }
{
    usize::from(strip.get(3).copied().unwrap_or(0))
}

// 12: each form of a strip stands here once, with its number of record bytes; what is no form has no right number.
fn check_record_bytes(strip: &[u8]) -> Result<(), Refusal>
    requires { 4 ≤ length strip.now }
    ensures { result ≡ refused_if (refusal 12) (wrong_record_bytes strip.now) }
{
    let record_bytes = match (strip[2], strip[3]) {
        (1, 16) => 480,
        (1, 24) => 576,
        (1, 32) => 672,
        _ => return Err(Refusal::WrongRecordBytes),
    };
    refusal::check_length(strip.len() - 4, record_bytes, Refusal::WrongRecordBytes)
}

// 10: all records are looked at, so that none is used before a bad one is found.
fn check_records(strip: &[u8]) -> Result<(), Refusal>
    requires { 4 ≤ length strip.now }
    ensures { result ≡ refused_if (refusal 10) (bad_record strip.now) }
{
    for record in strip[4..].chunks_exact(3) {
        let is_bad = 3 < record[2];
        if is_bad {
            return Err(Refusal::BadRecord);
        }
    }
    Ok(())
}

// A strip's own refusals in their order. Which key sizes are right is for the caller to say.
fn check_all(strip: &[u8], key_sizes: &[usize]) -> Result<(), Refusal>
    ensures { result ≡ first (check_list strip.now (none_of key_sizes.now (key_size strip.now))) Err (Ok tt) }
{
    strip::check_framing(strip)?;
    strip::check_unspent(strip)?;
    strip::check_version(strip)?;
    refusal::check_lengths(key_size_of(strip), key_sizes, Refusal::OtherKeySize)?;
    check_record_bytes(strip)?;
    check_records(strip)
}

// For a block under round keys of this key size: 9 where the strip's is another.
pub fn check(strip: &[u8], key_size: u8) -> Result<(), Refusal>
    ensures { result ≡ form_of strip.now key_size }
{
    check_all(strip, &[usize::from(key_size)])
}

// For no block yet, as a pool takes strips in: 9 where the key size is none of the three.
pub fn check_own(strip: &[u8]) -> Result<(), Refusal>
    ensures { result ≡ own_form_of strip.now }
{
    check_all(strip, &[16, 24, 32])
}
