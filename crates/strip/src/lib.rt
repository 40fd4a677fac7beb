// Strips: their form, the checks of their first bytes, the reader of records and the wipe.
#![tactic(auto, unfolding(crate::specs::Strip::bad_framing, crate::specs::Strip::spent, crate::specs::Strip::unknown_version, crate::specs::Strip::whole_record, crate::specs::Strip::wiped, refusal::specs::Answer::first))]

ghost use Rattle.std.specs.Prelude.{◌≡◌, length, replicate, Ok, Err};
ghost use Rattle.refusal.specs.Refusal.{refusal};
ghost use Rattle.refusal.specs.Answer.{refused_if, first};
ghost use Rattle.strip.specs.Strip.{version, bad_framing, spent, unknown_version, reading_checks, record_part, wiped};

use refusal::Refusal;

// 7, and the framing of messages.
pub fn check_framing(strip: &[u8]) -> Result<(), Refusal>
    ensures { result ≡ refused_if (refusal 7) (bad_framing strip.now) }
{
    let size = strip.len();
    if size < 4 {
        return Err(Refusal::BadFraming); // no room for the first four bytes
    }
    let field = u16::from_be_bytes([strip[0], strip[1]]);
    refusal::check_length(usize::from(field), size - 2, Refusal::BadFraming)
}

// The version that a strip names; what is too short to name one has version 0.
fn version_of(strip: &[u8]) -> u8
    ensures { result ≡ version strip.now }
{
    strip.get(2).copied().unwrap_or(0)
}

// 11: a spent strip has its own number, so version 0 is asked for apart.
pub fn check_unspent(strip: &[u8]) -> Result<(), Refusal>
    ensures { result ≡ refused_if (refusal 11) (spent strip.now) }
{
    if version_of(strip) == 0 {
        return Err(Refusal::Spent);
    }
    Ok(())
}

// 8: version 0 passes here, since 11 speaks of it.
pub fn check_version(strip: &[u8]) -> Result<(), Refusal>
    ensures { result ≡ refused_if (refusal 8) (unknown_version strip.now) }
{
    match version_of(strip) {
        0 | 1 => Ok(()),
        _ => Err(Refusal::UnknownVersion),
    }
}

// What is refused of a strip that a record is read from.
fn check_readable(strip: &[u8]) -> Result<(), Refusal>
    ensures { result ≡ first (reading_checks strip.now) Err (Ok tt) }
{
    check_framing(strip)?;
    check_version(strip)?;
    check_unspent(strip)
}

// A record as a part of the caller's own strip; records count from 0.
// The index is held against the number of whole records, so that no index overflows. Where there is none it is an empty part and no Option, as the rules have it (3.4).
pub fn record(strip: &[u8], index: usize) -> &[u8]
    ensures { result.now ≡ record_part strip.now index }
{
    let Ok(()) = check_readable(strip) else {
        return &strip[..0];
    };
    if (strip.len() - 4) / 3 <= index {
        return &strip[..0];
    }
    let start = 4 + 3 * index;
    &strip[start..start + 3]
}

// Every byte of a part becomes zero, with no look at what it was.
pub fn zero(part: &mut [u8])
    ensures { part.new ≡ replicate (length part.old) 0 }
{
    part.fill(0);
}

// Marks a strip as spent: version 0 and all record bytes zero; length and key size stay.
// A part too short to be a strip is wiped as far as it goes, so that the call takes any.
pub fn wipe(strip: &mut [u8])
    ensures { strip.new ≡ wiped strip.old }
{
    let size = strip.len();
    if size < 3 {
        return;
    }
    strip[2] = 0;
    if size < 5 {
        return;
    }
    zero(&mut strip[4..size]);
}
