// Key expansion of FIPS 197, from a bare key to bare round keys. Jumps and indices hang on lengths and places alone, never on a byte of the key.
#![tactic(auto, unfolding(refusal::specs::Answer::first, fips197::specs::Cipher::rcon))]

ghost use Rattle.std.specs.Prelude.{◌≡◌, ◌+◌, ◌-◌, ◌*◌, ◌≤◌, ◌<◌, length, take};
ghost use Rattle.fips197.specs.Cipher.{word, rcon, temp, expanded, key_expansion};
ghost use Rattle.expansion.specs.Expansion.{expansion_of};
ghost use Rattle.expansion.specs.Inner.{next_word};

use refusal::Refusal;

// Rcon, computed and not read from a table; j counts from 1.
fn round_constant(j: usize) -> [u8; 4]
    requires { 0 < j }
    ensures { result ≡ rcon j }
{
    [words::power(j - 1), 0, 0, 0]
}

// Word i of those written. `first_chunk` and `try_from` would answer a case that the bound rules out, so the four bytes stand one by one.
fn word(w: &[u8], i: usize) -> [u8; 4]
    requires { 4 * i + 4 ≤ length w.now }
    ensures { result ≡ word w.now i }
{
    let at = 4 * i;
    [w[at], w[at + 1], w[at + 2], w[at + 3]]
}

// How a key of nk words is expanded: every nk-th word differs, so there is at least one.
#[derive(Clone, Copy)]
struct Schedule {
    nk: usize,
    ghost some: { 0 < nk },
}

impl Schedule {
    // 5.2 temp: what is added to word i - nk, a being word i - 1.
    fn temp(self, i: usize, a: [u8; 4]) -> [u8; 4]
        requires { self.nk ≤ i }
        ensures { result ≡ temp self.nk i a }
    {
        let nk = self.nk;
        if i % nk == 0 {
            return words::sum(words::sub_word(words::rot_word(a)), round_constant(i / nk));
        }
        let is_long = nk > 6;
        if is_long && i % nk == 4 {
            return words::sub_word(a);
        }
        a
    }

    // 5.2 word i, from the words before it.
    fn next_word(self, i: usize, w: &[u8]) -> [u8; 4]
        requires { (self.nk ≤ i) × (4 * i ≤ length w.now) }
        ensures { result ≡ next_word self.nk i w.now }
    {
        let first = word(w, i - self.nk);
        let last = word(w, i - 1);
        words::sum(first, self.temp(i, last))
    }

    // 5.2 the words behind the first nk, one after the other.
    fn expand_words(self, w: &mut [u8], words: usize)
        requires { (self.nk ≤ words) × (length w.old ≡ 4 * words) }
        ensures { w.new ≡ expanded self.nk (words - self.nk) (take (4 * self.nk) w.old) }
    {
        for i in self.nk..words {
            let at = 4 * i;
            let next = self.next_word(i, &w[..at]);
            w[at..at + 4].copy_from_slice(&next);
        }
    }

    // 5.2 KeyExpansion: the key comes first.
    fn key_expansion(self, nr: usize, key: &[u8], w: &mut [u8])
        requires { (self.nk ≤ nr) × ((length key.now ≡ 4 * self.nk) × (length w.old ≡ 16 * (nr + 1))) }
        ensures { w.new ≡ key_expansion self.nk nr key.now }
    {
        w[..key.len()].copy_from_slice(key);
        self.expand_words(w, 4 * (nr + 1));
    }
}

// The round keys of a key, into the caller's buffer. All that is refused is refused before a byte is written.
pub fn expand(key: &[u8], round_keys: &mut [u8]) -> Result<(), Refusal>
    ensures { (result, round_keys.new) ≡ expansion_of key.now round_keys.old }
{
    refusal::check_lengths(key.len(), &[16, 24, 32], Refusal::KeyLength)?;
    let schedule = Schedule { nk: key.len() / 4 };
    let nr = schedule.nk + 6;
    refusal::check_length(round_keys.len(), 16 * (nr + 1), Refusal::RoundKeysLength)?;
    schedule.key_expansion(nr, key, round_keys);
    Ok(())
}
