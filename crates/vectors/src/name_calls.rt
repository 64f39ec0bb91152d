// Names: whether one is plain, how an encrypted directory stores one and reads it back, and how a stored one is shown without its key.
ghost use Rattle.std.specs.Prelude.{◌≤◌, length};

use crate::answers;
use crate::answers::Failure;
use crate::arguments::{ByteString, Words, room};
use fscrypt::{Name, encode, fname, keysetup};
use ids::EntryNumber;
use policy::Context;
use std::io::Write;

// check-name NAME
pub fn on_check(to: &mut impl Write, mut words: Words) -> Result<(), Failure> {
    let name = words.byte_string()?;
    words.end()?;
    let mut bytes = room();
    fname::check_name(name.lay(&mut bytes))?;
    answers::passed(to);
    Ok(())
}

// The derived key of a directory.
fn key_of(context: Context, master: [u8; 64]) -> [u8; 64] {
    let mut key = master;
    keysetup::derive_key(&mut key, context.nonce);
    key
}

fn write_name(to: &mut impl Write, name: Name) {
    answers::given(to, name.as_bytes());
}

// The context in these bytes. Not inlined: its callers would make the room before they look at the words.
#[inline(never)]
fn context_in(context: ByteString) -> Result<Context, Failure> {
    let mut bytes = room();
    Ok(policy::read_context(context.lay(&mut bytes))?)
}

// A plain name, as the directory with this context stores it. Not inlined, as above.
#[inline(never)]
fn store(
    to: &mut impl Write,
    context: Context,
    master: [u8; 64],
    name: ByteString,
) -> Result<(), Failure> {
    let mut bytes = room();
    let name = name.lay(&mut bytes);
    fname::check_name(name)?;
    let key = key_of(context, master);
    let p = context.policy;
    write_name(
        to,
        fname::encrypt_name(&key[..policy::name_key_size(p)], p.flags, name),
    );
    Ok(())
}

// store-name CONTEXT MASTER NAME
pub fn on_store(to: &mut impl Write, mut words: Words) -> Result<(), Failure> {
    let context = words.byte_string()?;
    let master = words.array::<64>()?;
    let name = words.byte_string()?;
    words.end()?;
    store(to, context_in(context)?, master, name)
}

// A stored name: 1 to 255 bytes.
fn stored_name(words: &mut Words) -> Result<Name, Failure> {
    let mut bytes = [0; 255];
    let bytes = words.bytes(&mut bytes)?;
    if bytes.is_empty() {
        Err(Failure::Malformed)
    } else {
        Ok(Name::new(bytes))
    }
}

// read-name CONTEXT MASTER STORED
pub fn on_read(to: &mut impl Write, mut words: Words) -> Result<(), Failure> {
    let context = words.byte_string()?;
    let master = words.array::<64>()?;
    let stored = stored_name(&mut words)?;
    words.end()?;
    let context = context_in(context)?;
    let key = key_of(context, master);
    let p = context.policy;
    write_name(
        to,
        fname::decrypt_name(&key[..policy::name_key_size(p)], p.flags, stored)?,
    );
    Ok(())
}

// encode-name NUMBER STORED
pub fn on_encode(to: &mut impl Write, mut words: Words) -> Result<(), Failure> {
    let number = words.number()?;
    let stored = stored_name(&mut words)?;
    words.end()?;
    write_name(to, encode::encode_name(stored, EntryNumber(number)));
    Ok(())
}
