// Cipher and InvCipher, FIPS 197 sections 5.1 and 5.3, over a key schedule.
#![tactic(auto, unfolding(crate::specs::Cipher::round, crate::specs::Cipher::last_round, crate::specs::Cipher::inv_round, crate::specs::Cipher::inv_last_round))]

ghost use Rattle.std.specs.Prelude.{◌≡◌, ◌≤◌};
ghost use Rattle.aes.specs.Cipher;
ghost use Rattle.aes.specs.Schedule.{Schedule};
ghost use Rattle.aes.specs.declared.State.{State};

use crate::{KeySchedule, State};

impl KeySchedule {
    fn round(&self, i: usize, s: State) -> State
        requires { i ≤ self.now.rounds }
        ensures { result ≡ Cipher.round self.now.bytes i s }
    {
        s.sub_bytes().shift_rows().mix_columns() ^ self.round_key(i)
    }

    fn last_round(&self, s: State) -> State
        ensures { result ≡ Cipher.last_round self.now.bytes self.now.rounds s }
    {
        s.sub_bytes().shift_rows() ^ self.round_key(self.rounds())
    }

    // Cipher, FIPS 197 algorithm 1.
    #[tactic(auto, using(crate::proofs::Rounds::rounds_none, crate::proofs::Rounds::rounds_turn), unfolding(crate::specs::Cipher::cipher))]
    pub fn encipher(&self, s: State) -> State
        ensures { result ≡ Cipher.cipher self.now.bytes self.now.rounds s }
    {
        let mut t = s ^ self.round_key(0);
        for i in 1..self.rounds() {
            t = self.round(i, t);
        }
        self.last_round(t)
    }

    fn inv_round(&self, i: usize, s: State) -> State
        requires { i ≤ self.now.rounds }
        ensures { result ≡ Cipher.inv_round self.now.bytes i s }
    {
        let subbed = s.inv_shift_rows().inv_sub_bytes();
        (subbed ^ self.round_key(i)).inv_mix_columns()
    }

    fn inv_last_round(&self, s: State) -> State
        ensures { result ≡ Cipher.inv_last_round self.now.bytes s }
    {
        s.inv_shift_rows().inv_sub_bytes() ^ self.round_key(0)
    }

    // InvCipher, FIPS 197 algorithm 3.
    #[tactic(auto, using(crate::proofs::Rounds::inv_rounds_turn, crate::proofs::Rounds::inv_rounds_none), unfolding(crate::specs::Cipher::inv_cipher))]
    pub fn decipher(&self, s: State) -> State
        ensures { result ≡ Cipher.inv_cipher self.now.bytes self.now.rounds s }
    {
        let mut t = s ^ self.round_key(self.rounds());
        for i in (1..self.rounds()).rev() {
            t = self.inv_round(i, t);
        }
        self.inv_last_round(t)
    }
}

// A direction of the cipher, which a mode of operation is built on: what a key schedule makes of a block.
pub trait BlockCipher {
    ghost block: { Schedule → State → State };

    fn apply(schedule: &KeySchedule, s: State) -> State
        ensures { result ≡ block schedule.now s };
}

// Cipher.
pub struct Encipher;

// InvCipher.
pub struct Decipher;

impl BlockCipher for Encipher {
    ghost block = { λ k. Cipher.cipher k.bytes k.rounds };

    fn apply(schedule: &KeySchedule, s: State) -> State {
        schedule.encipher(s)
    }
}

impl BlockCipher for Decipher {
    ghost block = { λ k. Cipher.inv_cipher k.bytes k.rounds };

    fn apply(schedule: &KeySchedule, s: State) -> State {
        schedule.decipher(s)
    }
}
