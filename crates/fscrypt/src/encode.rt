// A stored name as it is shown without its key.
ghost use Rattle.std.specs.Prelude.{◌≡◌, ◌+◌, ◌*◌, ◌/◌, ◌≤◌, ◌<◌, length, get_or};
ghost use Rattle.fscrypt.specs.Names.{name_bytes, packed};
ghost use Rattle.fscrypt.specs.Encoded;

use crate::Name;
use ids::EntryNumber;

// The letters for 0 to 63.
const ALPHABET: [u8; 64] = *b"ABCDEFGHIJKLMNOPQRSTUVWXYZabcdefghijklmnopqrstuvwxyz0123456789+,";

// The letter for six binary digits.
#[tactic(auto, using(crate::proofs::LetterMeanings::letter_means))]
fn letter(n: u8) -> u8
    requires { n < 64 }
    ensures { result ≡ Encoded.letter n }
{
    ALPHABET[usize::from(n)]
}

// A byte of a string, or 0 past its end.
fn byte(s: &[u8], i: usize) -> u8
    ensures { result ≡ get_or s.now i 0 }
{
    s.get(i).copied().unwrap_or(0)
}

// Letter j of a string: its digits lie in one byte or two.
#[tactic(auto, using(crate::proofs::Lettering::letters_at_0, crate::proofs::Lettering::letters_at_1, crate::proofs::Lettering::letters_at_2, crate::proofs::Lettering::letters_at_3))]
fn letter_at(s: &[u8], j: usize) -> u8
    requires { j < length (Encoded.letters s.now) }
    ensures { result ≡ get_or (Encoded.letters s.now) j 0 }
{
    let i = j / 4 * 3;
    match j % 4 {
        0 => letter(byte(s, i) / 4),
        1 => letter(byte(s, i) % 4 * 16 + byte(s, i + 1) / 16),
        2 => letter(byte(s, i + 1) % 16 * 4 + byte(s, i + 2) / 64),
        _ => letter(byte(s, i + 2) % 64),
    }
}

// The letters of a string, which fill the buffer.
fn put_letters(out: &mut [u8], s: &[u8])
    requires { length out.old ≡ length (Encoded.letters s.now) }
    ensures { out.new ≡ Encoded.letters s.now }
{
    for (j, letter) in out.iter_mut().enumerate() {
        *letter = letter_at(s, j);
    }
}

// A name of more than 160 bytes: the letters of the first 160, between a mark and the entry's number.
#[tactic(auto, using(crate::proofs::Lettering::long_text, crate::proofs::Lettering::length_front))]
fn encode_long(s: &[u8], entry: EntryNumber) -> Name
    requires { 160 < length s.now }
    ensures { result ≡ packed (Encoded.encoded s.now entry.0) }
{
    let mut text = [0; 217];
    text[0] = b'_';
    put_letters(&mut text[1..215], &s[..160]);
    text[215] = lists::hex_digit((entry.0 / 16 % 16) as u8);
    text[216] = lists::hex_digit((entry.0 % 16) as u8);
    Name::new(&text)
}

#[tactic(auto, using(crate::proofs::Lettering::length_letters, lists::proofs::ByteStrings::count_take))]
fn encode_short(s: &[u8]) -> Name
    requires { length s.now ≤ 160 }
    ensures { result ≡ packed (Encoded.letters s.now) }
{
    let mut text = [0; 214];
    let letters = &mut text[..(4 * s.len()).div_ceil(3)];
    put_letters(letters, s);
    Name::new(letters)
}

// The stored name of an entry as it is shown without its key.
#[tactic(auto, using(crate::proofs::Lettering::encoded_short))]
pub fn encode_name(stored: Name, entry: EntryNumber) -> Name
    ensures { result ≡ packed (Encoded.encoded (name_bytes stored) entry.0) }
{
    let bytes = stored.as_bytes();
    if bytes.len() <= 160 {
        encode_short(bytes)
    } else {
        encode_long(bytes, entry)
    }
}
