// KeyExpansion, FIPS 197 section 5.2, over the number of words of the key.
ghost use Rattle.std.specs.Prelude.{◌≡◌, ◌+◌, ◌-◌, ◌*◌, ◌≤◌, ◌<◌, length};
ghost use Rattle.aes.specs.Bytes.{put_at};
ghost use Rattle.aes.specs.KeyExpansion;

use crate::Word;
use field::gf;

// x^j, x being {02}.
#[tactic(auto, using(crate::proofs::Schedule::x_power_next), unfolding(crate::specs::KeyExpansion::x_power))]
fn x_power(j: usize) -> u8
    ensures { result ≡ KeyExpansion.x_power j }
{
    let mut b = 1;
    for _ in 0..j {
        b = gf::x_times(b);
    }
    b
}

// Rcon[j], FIPS 197 table 5.
#[tactic(auto, unfolding(crate::specs::KeyExpansion::rcon))]
fn rcon(j: usize) -> Word
    requires { 1 ≤ j }
    ensures { result ≡ KeyExpansion.rcon j }
{
    Word {
        r0: x_power(j - 1),
        r1: 0,
        r2: 0,
        r3: 0,
    }
}

// What is added to the word nk places back: the word before, changed at every nk-th word and, of long keys, in the middle between.
#[tactic(auto, using(std::proofs::lemmas::Bool::Decides::nat_tests), unfolding(crate::specs::KeyExpansion::temp))]
fn temp(nk: usize, i: usize, t: Word) -> Word
    requires { (4 ≤ nk) × (nk ≤ i) }
    ensures { result ≡ KeyExpansion.temp nk i t }
{
    match i % nk {
        0 => t.rot().sub() ^ rcon(i / nk),
        4 if 6 < nk => t.sub(),
        _ => t,
    }
}

// Word i, where w has the words before it.
#[tactic(auto, using(std::proofs::lemmas::Bool::Decides::nat_tests), unfolding(crate::specs::KeyExpansion::next_word))]
fn next_word(key: &[u8], nk: usize, w: &[u8], i: usize) -> Word
    requires { (4 ≤ nk) × (length key.now ≡ 4 * nk) × (4 * i ≤ length w.now) }
    ensures { result ≡ KeyExpansion.next_word nk key.now w.now i }
{
    if i < nk {
        Word::load(key, 4 * i)
    } else {
        Word::load(w, 4 * (i - nk)) ^ temp(nk, i, Word::load(w, 4 * i - 4))
    }
}

// KeyExpansion, FIPS 197 algorithm 2: the schedule of a key of 4 to 8 words, written from the start of w.
#[tactic(auto, using(crate::proofs::Schedule::expand_turn, crate::proofs::Schedule::expanded_all), unfolding(crate::specs::KeyExpansion::expanded))]
pub fn key_expansion(key: &[u8], w: &mut [u8])
    requires { KeyExpansion.KeySize (length key.now) × (length w.old ≡ 240) }
    ensures { w.new ≡ put_at w.old 0 (KeyExpansion.key_expansion key.now) }
{
    let nk = key.len() / 4;
    for i in 0..4 * (nk + 7) {
        next_word(key, nk, w, i).store(w, 4 * i);
    }
}
