// A line: what it asks for.

use crate::answers::Failure;
use crate::arguments::Words;
use crate::{answers, cipher_calls, name_calls, policy_calls};
use script::words;
use std::io::Write;

// What the line asks for, or why it is answered otherwise.
fn request(to: &mut impl Write, line: &[u8]) -> Result<(), Failure> {
    let (name, args) = words::split(line);
    let words = Words::new(args);
    match name {
        b"key-expansion" => cipher_calls::on_key(to, words),
        b"ecb-encrypt" => cipher_calls::on_text(to, ciphers::ecb_encrypt, words),
        b"cts-encrypt" => cipher_calls::on_text(to, ciphers::cts_encrypt, words),
        b"cts-decrypt" => cipher_calls::on_text(to, ciphers::cts_decrypt, words),
        b"xts-encrypt" => cipher_calls::on_block(to, ciphers::xts_encrypt, words),
        b"xts-decrypt" => cipher_calls::on_block(to, ciphers::xts_decrypt, words),
        b"policy" => policy_calls::on_policy(to, words),
        b"context" => policy_calls::on_context(to, words),
        b"same-policy" => policy_calls::on_policies(to, words),
        b"check-name" => name_calls::on_check(to, words),
        b"store-name" => name_calls::on_store(to, words),
        b"read-name" => name_calls::on_read(to, words),
        b"encode-name" => name_calls::on_encode(to, words),
        _ => Err(Failure::Malformed),
    }
}

pub fn answer(to: &mut impl Write, line: &[u8]) {
    if line.is_empty() || line[0] == b'#' {
        answers::echo(to, line);
    } else if let Err(why) = request(to, line) {
        answers::failed(to, why);
    }
}
