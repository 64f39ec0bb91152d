// The words of a request after its name, taken one after the other, and the byte strings that they are.
ghost use Rattle.std.specs.Prelude.{◌≤◌, length, IfOk};
ghost use Rattle.script.specs.Strings.{bytes_of};

use crate::answers::Failure;
use script::{numbers, strings, words};

// The most bytes that a byte string has: more than the ciphers take, so that a text that is too long for them can be tried.
const MOST_BYTES: usize = 4200;

// Room for a byte string.
pub type Room = [u8; MOST_BYTES];

pub fn room() -> Room {
    [0; MOST_BYTES]
}

// A word that is a byte string which a room holds. Rooms are taken once all words of a line have been looked at: a line that is no request costs none.
#[derive(Clone, Copy)]
pub struct ByteString<'a> {
    word: &'a [u8],
    ghost fits: { length (bytes_of word.now) ≤ 4200 },
}

impl ByteString<'_> {
    // The bytes that the word stands for, laid over the start of a room.
    pub fn lay<'b>(&self, room: &'b mut Room) -> &'b mut [u8] {
        strings::lay(self.word, room);
        &mut room[..strings::byte_count(self.word)]
    }
}

// The words that are left.
#[derive(Clone, Copy)]
pub struct Words<'a> {
    rest: &'a [u8],
}

impl<'a> Words<'a> {
    pub fn new(args: &'a [u8]) -> Self {
        Words { rest: args }
    }

    // The next word. One that is missing is empty: no byte string and no number.
    fn word(&mut self) -> &'a [u8] {
        let (word, rest) = words::split(self.rest);
        self.rest = rest;
        word
    }

    // After the last word that a request takes.
    pub fn end(mut self) -> Result<(), Failure> {
        if self.word().is_empty() {
            Ok(())
        } else {
            Err(Failure::Malformed)
        }
    }

    pub fn number(&mut self) -> Result<u64, Failure> {
        numbers::number(self.word()).ok_or(Failure::Malformed)
    }

    // The next word, a byte string.
    pub fn byte_string(&mut self) -> Result<ByteString<'a>, Failure> {
        let word = self.word();
        if strings::is_byte_string(word) && strings::byte_count(word) <= MOST_BYTES {
            Ok(ByteString { word })
        } else {
            Err(Failure::Malformed)
        }
    }

    // The bytes that the next word stands for, laid over the start of a room that holds them.
    pub fn bytes<'b>(&mut self, room: &'b mut [u8]) -> Result<&'b mut [u8], Failure>
        ensures { IfOk result (λ bytes. length bytes.now ≤ length room.old) }
    {
        let word = self.word();
        if !strings::is_byte_string(word) || room.len() < strings::byte_count(word) {
            return Err(Failure::Malformed);
        }
        strings::lay(word, room);
        Ok(&mut room[..strings::byte_count(word)])
    }

    // The N bytes that the next word stands for.
    pub fn array<const N: usize>(&mut self) -> Result<[u8; N], Failure> {
        let mut array = [0; N];
        if self.bytes(&mut array)?.len() == N {
            Ok(array)
        } else {
            Err(Failure::Malformed)
        }
    }
}
