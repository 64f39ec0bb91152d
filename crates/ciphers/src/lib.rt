// The ciphers, for a caller that need not know how they work: any key, any buffer, no condition. A call with a wrong length answers 22 (EINVAL) and
// leaves the buffer as it was. specs/Entries.antt says what each call does, and proofs/Laws.antt has the laws that callers cite.
#![tactic(auto)]

mod keys;

ghost use Rattle.std.specs.Prelude.{◌≡◌};
ghost use Rattle.ciphers.specs.Entries.{outcome, status_of, cts_encrypt, cts_decrypt, xts_encrypt, xts_decrypt, ecb_encrypt};
ghost use Rattle.ciphers.specs.Meanings.{Meanings};

use aes::{Decipher, Encipher};
use errno::Errno;

// An answer: 0 for done, or 22 for EINVAL. A number, as C is given it (crates/capi).
#[derive(Clone, Copy, Debug, PartialEq, Eq)]
pub struct Status {
    pub errno: u8,
}

impl From<Result<(), Errno>> for Status {
    ghost from_gives = { λ done status. status ≡ status_of done };

    fn from(done: Result<(), Errno>) -> Status {
        match done {
            Ok(()) => Status { errno: 0 },
            Err(e) => Status { errno: e.into() },
        }
    }
}

// CBC-CS3 of a text of 16 to 4,096 bytes, in place, under a key of 16 or 32 bytes, from an initialization vector of zeros. README and C name each of the five entries, so
// they stay beside one another.
#[tactic(auto, unfolding(crate::specs::Entries::cts_encrypt))]
pub fn cts_encrypt(key: &[u8], text: &mut [u8]) -> Status
    ensures { outcome result text.new ≡ cts_encrypt key.now text.old }
{
    keys::cts_crypt::<Encipher>(key, text).into()
}

#[tactic(auto, unfolding(crate::specs::Entries::cts_decrypt))]
pub fn cts_decrypt(key: &[u8], text: &mut [u8]) -> Status
    ensures { outcome result text.new ≡ cts_decrypt key.now text.old }
{
    keys::cts_crypt::<Decipher>(key, text).into()
}

// XTS-AES-256 of a block of 4,096 bytes, in place, under a key of 64 bytes; the block's number makes the tweak.
#[tactic(auto, unfolding(crate::specs::Entries::xts_encrypt))]
pub fn xts_encrypt(key: &[u8], block_number: u64, block: &mut [u8]) -> Status
    ensures { outcome result block.new ≡ xts_encrypt key.now block_number block.old }
{
    keys::xts_crypt::<Encipher>(key, block_number, block).into()
}

#[tactic(auto, unfolding(crate::specs::Entries::xts_decrypt))]
pub fn xts_decrypt(key: &[u8], block_number: u64, block: &mut [u8]) -> Status
    ensures { outcome result block.new ≡ xts_decrypt key.now block_number block.old }
{
    keys::xts_crypt::<Decipher>(key, block_number, block).into()
}

// AES-128 of 1 to 4 whole blocks, each by itself, in place, under a key of 16 bytes.
pub fn ecb_encrypt(key: &[u8], text: &mut [u8]) -> Status
    ensures { outcome result text.new ≡ ecb_encrypt key.now text.old }
{
    keys::ecb_encrypt(key, text).into()
}

// Which lengths each entry takes, that no two blocks of a key share a tweak, and what a tweak's start, multiplication by α and ciphertext stealing are in plain terms.
// The function does nothing: its `ensures` is the theorem.
pub fn meanings()
    ensures { Meanings }
{}
