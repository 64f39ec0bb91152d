// AES, FIPS 197 section 5, for keys of 4 to 8 words: the transformations of the state, KeyExpansion, Cipher and InvCipher.
#![tactic(auto)]

pub mod cipher;
pub mod key_expansion;
pub mod key_schedule;
pub mod states;
pub mod words;

pub use cipher::{BlockCipher, Decipher, Encipher};
pub use key_schedule::KeySchedule;

// A word of four bytes: a column of the state, whose rows these are, or a word of the key schedule.
#[derive(Clone, Copy, Debug, Default, PartialEq, Eq)]
pub struct Word {
    pub r0: u8,
    pub r1: u8,
    pub r2: u8,
    pub r3: u8,
}

// The state: four columns.
#[derive(Clone, Copy, Debug, Default, PartialEq, Eq)]
pub struct State {
    pub c0: Word,
    pub c1: Word,
    pub c2: Word,
    pub c3: Word,
}
