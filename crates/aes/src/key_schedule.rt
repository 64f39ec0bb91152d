// A key, expanded: what Cipher and InvCipher take their round keys from.
ghost use Rattle.std.specs.Prelude.{◌≡◌, ◌+◌, ◌*◌, ◌<◌, ◌≤◌, length, take};
ghost use Rattle.aes.specs.KeyExpansion.{KeySize};
ghost use Rattle.aes.specs.Cipher.{round_key};
ghost use Rattle.aes.specs.Schedule.{schedule};

use crate::{State, key_expansion};
use std::marker::Model;

// The round keys 0 to rounds, 16 bytes each; the bytes after them are not read.
#[derive(Drop)]
pub struct KeySchedule {
    bytes: [u8; 240],
    rounds: usize,
}

impl Model for KeySchedule {
    ghost use Rattle.std.specs.Prelude.{◌+◌, ◌*◌, ◌<◌, take};
    ghost use Rattle.aes.specs.Schedule.{Schedule};

    ghost Value = { Schedule };

    ghost view = { λ s. record { bytes = take (16 * (s.rounds + 1)) s.bytes; rounds = s.rounds } };

    ghost invariant = { λ s. s.rounds < 15 };
}

impl KeySchedule {
    // The schedule of a key of 4 to 8 words.
    #[tactic(auto, using(crate::proofs::Schedule::schedule_bytes))]
    pub fn new(key: &[u8]) -> Self
        requires { KeySize (length key.now) }
        ensures { result ≡ schedule key.now }
    {
        let mut bytes = [0; 240];
        key_expansion::key_expansion(key, &mut bytes);
        KeySchedule::over(bytes, key.len() / 4 + 6)
    }

    // Any bytes as a schedule, the round keys 0 to rounds first: FIPS 197's ciphers are defined over any.
    pub fn over(bytes: [u8; 240], rounds: usize) -> Self
        requires { rounds < 15 }
        ensures { result ≡ record { bytes = take (16 * (rounds + 1)) bytes; rounds = rounds } }
    {
        KeySchedule { bytes, rounds }
    }

    pub fn rounds(&self) -> usize
        ensures { result ≡ self.now.rounds }
    {
        self.rounds
    }

    // The expanded key, FIPS 197's w, as bytes.
    pub fn bytes(&self) -> &[u8]
        ensures bytes { result.now ≡ self.now.bytes }
        ensures whole { length result.now ≡ 16 * (self.now.rounds + 1) }
        ensures few { self.now.rounds < 15 }
    {
        &self.bytes[..16 * (self.rounds + 1)]
    }

    // The round key of round i.
    #[tactic(auto, unfolding(crate::specs::Cipher::round_key))]
    pub fn round_key(&self, i: usize) -> State
        requires { i ≤ self.now.rounds }
        ensures { result ≡ round_key self.now.bytes i }
    {
        State::load(self.bytes(), 16 * i)
    }
}
