// The ciphers: a request's words are decoded, the function is called, and its answer is written.

use crate::answers;
use crate::answers::Failure;
use crate::arguments::{Words, room};
use aes::KeySchedule;
use ciphers::Status;
use std::io::Write;

// key-expansion KEY. KeyExpansion is defined for keys of 16 to 32 bytes in whole words alone.
pub fn on_key(to: &mut impl Write, mut words: Words) -> Result<(), Failure> {
    let key = words.byte_string()?;
    words.end()?;
    let mut bytes = room();
    let key = key.lay(&mut bytes);
    if !matches!(key.len(), 16 | 20 | 24 | 28 | 32) {
        return Err(Failure::Malformed);
    }
    answers::given(to, KeySchedule::new(key).bytes());
    Ok(())
}

// KEY TEXT, for a function of a key and a text.
pub fn on_text<C: Fn(&[u8], &mut [u8]) -> Status>(
    to: &mut impl Write,
    call: C,
    mut words: Words,
) -> Result<(), Failure>
    requires { C.IsAlwaysCallable call }
{
    let key = words.byte_string()?;
    let text = words.byte_string()?;
    words.end()?;
    let (mut of_key, mut of_text) = (room(), room());
    let (key, text) = (key.lay(&mut of_key), text.lay(&mut of_text));
    let status = call(key, text);
    answers::after_call(to, status.errno, text);
    Ok(())
}

// KEY NUMBER BLOCK, for a function of a key, a block's number and the block.
pub fn on_block<C: Fn(&[u8], u64, &mut [u8]) -> Status>(
    to: &mut impl Write,
    call: C,
    mut words: Words,
) -> Result<(), Failure>
    requires { C.IsAlwaysCallable call }
{
    let key = words.byte_string()?;
    let number = words.number()?;
    let block = words.byte_string()?;
    words.end()?;
    let (mut of_key, mut of_block) = (room(), room());
    let (key, block) = (key.lay(&mut of_key), block.lay(&mut of_block));
    let status = call(key, number, block);
    answers::after_call(to, status.errno, block);
    Ok(())
}
