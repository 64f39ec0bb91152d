// Words of four bytes, and their sums and substitutions, FIPS 197.
#![tactic(auto, unfolding(crate::specs::Words::sub_word, crate::specs::Words::inv_sub_word, crate::specs::Words::rot_word, crate::specs::Words::word_at))]

ghost use Rattle.std.specs.Prelude.{◌≡◌, ◌+◌, ◌≤◌, length};
ghost use Rattle.aes.specs.Words.{sub_word, inv_sub_word, mix_column, inv_mix_column, add_word, rot_word, word_at};
ghost use Rattle.aes.specs.Bytes.{put_at, word_bytes};

use crate::Word;
use field::{gf, sbox};
use std::ops::BitXor;

// The sum of two words, byte by byte.
impl BitXor for Word {
    type Output = Word;

    ghost bitxor_gives = { λ w k sum. sum ≡ add_word w k };

    #[tactic(auto, using(field::proofs::Xor::xor_is_sum), unfolding(crate::specs::Words::add_word))]
    fn bitxor(self, k: Word) -> Word {
        Word {
            r0: self.r0 ^ k.r0,
            r1: self.r1 ^ k.r1,
            r2: self.r2 ^ k.r2,
            r3: self.r3 ^ k.r3,
        }
    }
}

impl Word {
    // The word of f's answers to each byte.
    fn map<F: Fn(u8) -> u8>(self, f: F) -> Word
        requires { F.IsAlwaysCallable f }
        ensures r0 { F.post f self.r0 result.r0 }
        ensures r1 { F.post f self.r1 result.r1 }
        ensures r2 { F.post f self.r2 result.r2 }
        ensures r3 { F.post f self.r3 result.r3 }
    {
        Word {
            r0: f(self.r0),
            r1: f(self.r1),
            r2: f(self.r2),
            r3: f(self.r3),
        }
    }

    // SubWord (5.11).
    pub fn sub(self) -> Word
        ensures { result ≡ sub_word self }
    {
        self.map(sbox::s_box)
    }

    pub fn inv_sub(self) -> Word
        ensures { result ≡ inv_sub_word self }
    {
        self.map(sbox::inv_s_box)
    }

    // RotWord (5.10).
    pub fn rot(self) -> Word
        ensures { result ≡ rot_word self }
    {
        Word {
            r0: self.r1,
            r1: self.r2,
            r2: self.r3,
            r3: self.r0,
        }
    }

    // The word whose bytes f makes, each of the four bytes from its own row on.
    fn mix_by<F: Fn(u8, u8, u8, u8) -> u8>(self, f: F) -> Word
        requires { F.IsAlwaysCallable f }
        ensures r0 { F.post f self.r0 self.r1 self.r2 self.r3 result.r0 }
        ensures r1 { F.post f self.r1 self.r2 self.r3 self.r0 result.r1 }
        ensures r2 { F.post f self.r2 self.r3 self.r0 self.r1 result.r2 }
        ensures r3 { F.post f self.r3 self.r0 self.r1 self.r2 result.r3 }
    {
        let Word { r0, r1, r2, r3 } = self;
        Word {
            r0: f(r0, r1, r2, r3),
            r1: f(r1, r2, r3, r0),
            r2: f(r2, r3, r0, r1),
            r3: f(r3, r0, r1, r2),
        }
    }

    // A column of MixColumns (5.7).
    #[tactic(auto, using(crate::proofs::MixColumns::mix_column_rows), unfolding(crate::proofs::MixColumns::mixed))]
    pub fn mix(self) -> Word
        ensures { result ≡ mix_column self }
    {
        self.mix_by(gf::mix_byte)
    }

    // A column of InvMixColumns (5.14).
    #[tactic(auto, using(crate::proofs::MixColumns::inv_mix_column_rows), unfolding(crate::proofs::MixColumns::mixed))]
    pub fn inv_mix(self) -> Word
        ensures { result ≡ inv_mix_column self }
    {
        self.mix_by(gf::inv_mix_byte)
    }

    // The word at a position of a list of bytes.
    pub fn load(bytes: &[u8], at: usize) -> Word
        requires { at + 4 ≤ length bytes.now }
        ensures { result ≡ word_at bytes.now at }
    {
        Word {
            r0: bytes[at],
            r1: bytes[at + 1],
            r2: bytes[at + 2],
            r3: bytes[at + 3],
        }
    }

    #[tactic(auto, unfolding(crate::specs::Bytes::put_at))]
    pub fn store(self, bytes: &mut [u8], at: usize)
        requires { at + 4 ≤ length bytes.old }
        ensures { bytes.new ≡ put_at bytes.old at (word_bytes self) }
    {
        let Word { r0, r1, r2, r3 } = self;
        bytes[at..at + 4].copy_from_slice(&[r0, r1, r2, r3]);
    }
}
