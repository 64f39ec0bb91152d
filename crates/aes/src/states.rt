// The state and its transformations, FIPS 197 sections 5.1.1 to 5.1.4 and 5.3.1 to 5.3.4.
#![tactic(auto, unfolding(crate::specs::States::sub_bytes, crate::specs::States::inv_sub_bytes, crate::specs::States::shift_rows, crate::specs::States::inv_shift_rows, crate::specs::States::mix_columns, crate::specs::States::inv_mix_columns, crate::specs::States::add_round_key, crate::specs::States::state_at))]

ghost use Rattle.std.specs.Prelude.{◌≡◌, ◌+◌, ◌≤◌, length};
ghost use Rattle.aes.specs.States.{sub_bytes, inv_sub_bytes, shift_rows, inv_shift_rows, mix_columns, inv_mix_columns, add_round_key, state_at};
ghost use Rattle.aes.specs.Bytes.{put_at, state_bytes};

use crate::{State, Word};
use std::ops::BitXor;

// AddRoundKey, and the sum of two blocks: byte by byte.
impl BitXor for State {
    type Output = State;

    ghost bitxor_gives = { λ s k sum. sum ≡ add_round_key s k };

    fn bitxor(self, k: State) -> State {
        State {
            c0: self.c0 ^ k.c0,
            c1: self.c1 ^ k.c1,
            c2: self.c2 ^ k.c2,
            c3: self.c3 ^ k.c3,
        }
    }
}

fn diagonal(p: Word, q: Word, r: Word, s: Word) -> Word
    ensures { result ≡ Rattle.aes.specs.States.diagonal p q r s }
{
    Word {
        r0: p.r0,
        r1: q.r1,
        r2: r.r2,
        r3: s.r3,
    }
}

impl State {
    // The state of f's answers to each column, as Word::map is of a word's bytes: FIPS 197 has names of their own for rows and columns, so they are two types.
    fn map<F: Fn(Word) -> Word>(self, f: F) -> State
        requires { F.IsAlwaysCallable f }
        ensures c0 { F.post f self.c0 result.c0 }
        ensures c1 { F.post f self.c1 result.c1 }
        ensures c2 { F.post f self.c2 result.c2 }
        ensures c3 { F.post f self.c3 result.c3 }
    {
        State {
            c0: f(self.c0),
            c1: f(self.c1),
            c2: f(self.c2),
            c3: f(self.c3),
        }
    }

    pub fn sub_bytes(self) -> State
        ensures { result ≡ sub_bytes self }
    {
        self.map(Word::sub)
    }

    pub fn inv_sub_bytes(self) -> State
        ensures { result ≡ inv_sub_bytes self }
    {
        self.map(Word::inv_sub)
    }

    pub fn mix_columns(self) -> State
        ensures { result ≡ mix_columns self }
    {
        self.map(Word::mix)
    }

    pub fn inv_mix_columns(self) -> State
        ensures { result ≡ inv_mix_columns self }
    {
        self.map(Word::inv_mix)
    }

    pub fn shift_rows(self) -> State
        ensures { result ≡ shift_rows self }
    {
        let State { c0, c1, c2, c3 } = self;
        State {
            c0: diagonal(c0, c1, c2, c3),
            c1: diagonal(c1, c2, c3, c0),
            c2: diagonal(c2, c3, c0, c1),
            c3: diagonal(c3, c0, c1, c2),
        }
    }

    pub fn inv_shift_rows(self) -> State
        ensures { result ≡ inv_shift_rows self }
    {
        let State { c0, c1, c2, c3 } = self;
        State {
            c0: diagonal(c0, c3, c2, c1),
            c1: diagonal(c1, c0, c3, c2),
            c2: diagonal(c2, c1, c0, c3),
            c3: diagonal(c3, c2, c1, c0),
        }
    }

    // The block at a position of a list of bytes, column after column.
    pub fn load(bytes: &[u8], at: usize) -> State
        requires { at + 16 ≤ length bytes.now }
        ensures { result ≡ state_at bytes.now at }
    {
        State {
            c0: Word::load(bytes, at),
            c1: Word::load(bytes, at + 4),
            c2: Word::load(bytes, at + 8),
            c3: Word::load(bytes, at + 12),
        }
    }

    #[tactic(auto, using(crate::proofs::PutAt::put_four))]
    pub fn store(self, bytes: &mut [u8], at: usize)
        requires { at + 16 ≤ length bytes.old }
        ensures { bytes.new ≡ put_at bytes.old at (state_bytes self) }
    {
        self.c0.store(bytes, at);
        self.c1.store(bytes, at + 4);
        self.c2.store(bytes, at + 8);
        self.c3.store(bytes, at + 12);
    }
}
