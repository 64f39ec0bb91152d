// What the entries stand on: the tests of the lengths, and each cipher under a key, which is expanded here, or refused with the buffer as it was.
#![tactic(auto, unfolding(crate::specs::Entries::cts_fits, crate::specs::Entries::xts_fits, crate::specs::Entries::ecb_fits, crate::specs::Entries::tweak_of, crate::specs::Entries::ecb_encrypt))]

ghost use Rattle.std.specs.Prelude.{◌≡◌, ◌*◌, ◌/◌, ◌≤◌, length, take};
ghost use Rattle.aes.specs.KeyExpansion.{KeySize, key_expansion, rounds_of};
ghost use Rattle.aes.specs.Schedule.{schedule};
ghost use Rattle.modes.specs.Blocks.{zero_block};
ghost use Rattle.modes.specs.Cts.{cs3};
ghost use Rattle.modes.specs.Ecb.{ecb_blocks};
ghost use Rattle.modes.specs.Xts.{xts_aes};
ghost use Rattle.ciphers.specs.Entries.{outcome, status_of, answer, cts_fits, xts_fits, ecb_fits, tweak_of, ecb_encrypt};

use aes::{BlockCipher, KeySchedule, State};
use errno::Errno;
use modes::{blocks, cts, ecb, xts};

// Which lengths of a key and a text are taken.
fn cts_fits(key: usize, text: usize) -> bool
    ensures { result ≡ cts_fits key text }
{
    (16..=4096).contains(&text) && matches!(key, 16 | 32)
}

fn xts_fits(key: usize, block: usize) -> bool
    ensures { result ≡ xts_fits key block }
{
    key == 64 && block == 4096
}

fn ecb_fits(key: usize, text: usize) -> bool
    ensures { result ≡ ecb_fits key text }
{
    key == 16 && text % 16 == 0 && (16..=64).contains(&text)
}

// CBC-CS3 from an initialization vector of zeros, of lengths that are taken. Not inlined, as the two below, so that a refused call costs the test alone.
#[inline(never)]
fn cts_work<D: cts::Cs3>(key: &[u8], text: &mut [u8])
    requires { KeySize (length key.now) × (16 ≤ length text.old) }
    ensures { text.new ≡ cs3 (D.step (schedule key.now)) D.next (D.last (schedule key.now)) zero_block text.old }
{
    cts::crypt::<D>(&KeySchedule::new(key), State::default(), text);
}

// CBC-CS3 of any lengths.
pub fn cts_crypt<D: cts::Cs3>(key: &[u8], text: &mut [u8]) -> Result<(), Errno>
    ensures { outcome (status_of result) text.new
        ≡ answer (cts_fits (length key.now) (length text.old)) (cs3 (D.step (schedule key.now)) D.next (D.last (schedule key.now)) zero_block text.old) text.old }
{
    if !cts_fits(key.len(), text.len()) {
        return Err(Errno::EINVAL);
    }
    cts_work::<D>(key, text);
    Ok(())
}

// XTS-AES-256: the first half of the key is for the data. The tweak of the first 16 bytes is the block's number, enciphered under the second half.
#[inline(never)]
fn xts_work<C: BlockCipher>(key: &[u8], number: u64, block: &mut [u8])
    requires { (length key.now ≡ 64) × (length block.old ≡ 4096) }
    ensures { block.new ≡ xts_aes (C.block (record { bytes = key_expansion (take 32 key.now); rounds = rounds_of 8 })) (tweak_of key.now number) 256 block.old }
{
    let (data, second) = key.split_at(32);
    let tweak = KeySchedule::new(second).encipher(blocks::number_block(number));
    xts::crypt::<C>(&KeySchedule::new(data), tweak, block);
}

// XTS-AES-256 of any lengths.
pub fn xts_crypt<C: BlockCipher>(key: &[u8], number: u64, block: &mut [u8]) -> Result<(), Errno>
    ensures { outcome (status_of result) block.new
        ≡ answer (xts_fits (length key.now) (length block.old)) (xts_aes (C.block (record { bytes = key_expansion (take 32 key.now); rounds = rounds_of 8 })) (tweak_of key.now number) 256 block.old) block.old }
{
    if !xts_fits(key.len(), block.len()) {
        return Err(Errno::EINVAL);
    }
    xts_work::<C>(key, number, block);
    Ok(())
}

// AES-128, each block by itself.
#[inline(never)]
fn ecb_work(key: &[u8], text: &mut [u8])
    requires { KeySize (length key.now) × (length text.old ≡ 16 * (length text.old / 16)) }
    ensures { text.new ≡ ecb_blocks (key_expansion key.now) (rounds_of (length key.now / 4)) text.old (length text.old / 16) }
{
    ecb::encrypt(&KeySchedule::new(key), text);
}

// AES-128 of any lengths.
pub fn ecb_encrypt(key: &[u8], text: &mut [u8]) -> Result<(), Errno>
    ensures { outcome (status_of result) text.new ≡ ecb_encrypt key.now text.old }
{
    if !ecb_fits(key.len(), text.len()) {
        return Err(Errno::EINVAL);
    }
    ecb_work(key, text);
    Ok(())
}
