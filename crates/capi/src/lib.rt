// The ciphers for programs in C and Rust. `rt lib` in this crate's directory proves it and writes out/libcapi.a, which defines these names.
// Each function only calls the one of its name in ciphers, and answers its errno: 0, or 22 (EINVAL) where a length is wrong, and then the buffer is as
// it was. A caller need test nothing. A slice is passed as the address of its first byte and then its length: bulwarkle.h beside src/ declares
// them for C.
//
// Nothing checks a declaration in C or Rust against this file, nor a call: each address, which is not null, must have so many bytes behind it, key and
// buffer must not overlap, and nobody else may write them during the call.
#![tactic(auto)]

ghost use Rattle.std.specs.Prelude.{◌≡◌};
ghost use Rattle.ciphers.specs.Entries.{outcome, cts_encrypt, cts_decrypt, xts_encrypt, xts_decrypt, ecb_encrypt};

// XTS-AES-256 of a block of 4,096 bytes under a key of 64, both ways.
#[unsafe(no_mangle)]
pub extern "C" fn bulwarkle_xts_encrypt(key: &[u8], block_number: u64, block: &mut [u8]) -> u8
    ensures { outcome (record { errno = result }) block.new ≡ xts_encrypt key.now block_number block.old }
{
    ciphers::xts_encrypt(key, block_number, block).errno
}

#[unsafe(no_mangle)]
pub extern "C" fn bulwarkle_xts_decrypt(key: &[u8], block_number: u64, block: &mut [u8]) -> u8
    ensures { outcome (record { errno = result }) block.new ≡ xts_decrypt key.now block_number block.old }
{
    ciphers::xts_decrypt(key, block_number, block).errno
}

// CBC-CS3 of a text of 16 to 4,096 bytes under a key of 16 or 32, from an initialization vector of zeros, both ways.
#[unsafe(no_mangle)]
pub extern "C" fn bulwarkle_cts_encrypt(key: &[u8], text: &mut [u8]) -> u8
    ensures { outcome (record { errno = result }) text.new ≡ cts_encrypt key.now text.old }
{
    ciphers::cts_encrypt(key, text).errno
}

#[unsafe(no_mangle)]
pub extern "C" fn bulwarkle_cts_decrypt(key: &[u8], text: &mut [u8]) -> u8
    ensures { outcome (record { errno = result }) text.new ≡ cts_decrypt key.now text.old }
{
    ciphers::cts_decrypt(key, text).errno
}

// AES-128 of 1 to 4 whole blocks, each by itself, under a key of 16 bytes.
#[unsafe(no_mangle)]
pub extern "C" fn bulwarkle_ecb_encrypt(key: &[u8], text: &mut [u8]) -> u8
    ensures { outcome (record { errno = result }) text.new ≡ ecb_encrypt key.now text.old }
{
    ciphers::ecb_encrypt(key, text).errno
}
