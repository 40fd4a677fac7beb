// The numbers of a pool as bytes, in messages, in states and beside a strip: four bytes, big-endian.
#![tactic(auto, unfolding(crate::specs::Numbers::number_at, crate::specs::Numbers::number_bytes))]

ghost use Rattle.std.specs.Prelude.{◌≡◌, get_or};
ghost use Rattle.pool_numbers.specs.Numbers.{number_bytes, number_at};

// A byte that is not there counts as zero.
pub fn byte_at(part: &[u8], index: usize) -> u8
    ensures { result ≡ get_or part.now index 0 }
{
    part.get(index).copied().unwrap_or(0)
}

pub fn number_at(part: &[u8], at: u8) -> u32
    ensures { result ≡ number_at part.now at }
{
    let first = usize::from(at);
    u32::from_be_bytes([
        byte_at(part, first),
        byte_at(part, first + 1),
        byte_at(part, first + 2),
        byte_at(part, first + 3),
    ])
}

pub fn number_bytes(n: u32) -> [u8; 4]
    ensures { result ≡ number_bytes n }
{
    n.to_be_bytes()
}
