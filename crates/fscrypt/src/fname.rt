// Names: which are plain, how one is stored in an encrypted directory, and how a stored one is read.
ghost use Rattle.std.specs.Prelude.{◌≡◌, ◌≤◌, length};
ghost use Rattle.lists.specs.Bytes.{first_at};
ghost use Rattle.fscrypt.specs.Cipher.{fscrypt, decrypt_name};
ghost use Rattle.fscrypt.specs.Names.{is_nul, is_nul_or_slash, is_dot_name, is_bad_name, name_check, multiple, padded_length, padded, is_all_nul, read_padded, name_bytes, packed};
ghost use Rattle.fscrypt.specs.Names;

use crate::Name;
use errno::Errno;

// Plain names

fn is_nul_or_slash(b: u8) -> bool
    ensures { result ≡ is_nul_or_slash b }
{
    b == 0 || b == b'/'
}

#[tactic(auto, using(crate::proofs::Searching::dot_reads))]
fn is_dot_name(name: &[u8]) -> bool
    ensures { result ≡ is_dot_name name.now }
{
    matches!(name, b"." | b"..")
}

// A NUL or a `/` is in it, or it is `.` or `..`.
fn is_bad_name(name: &[u8]) -> bool
    ensures { result ≡ is_bad_name name.now }
{
    name.iter().any(|&b| is_nul_or_slash(b)) || is_dot_name(name)
}

// Whether a name is a plain one, or the refusal of it.
#[tactic(auto, using(errno::proofs::Chains::line_case), unfolding(crate::specs::Names::name_check))]
pub fn check_name(name: &[u8]) -> Result<(), Errno>
    ensures { result ≡ name_check name.now }
{
    if name.is_empty() {
        return Err(Errno::ENOENT);
    }
    if name.len() > 255 {
        return Err(Errno::ENAMETOOLONG);
    }
    if is_bad_name(name) {
        return Err(Errno::EINVAL);
    }
    Ok(())
}

// Padding

fn multiple_of(flags: u8) -> usize
    ensures { (result ≡ multiple flags) × (4 ≤ result) × (result ≤ 32) }
{
    match flags {
        0 => 4,
        1 => 8,
        2 => 16,
        _ => 32,
    }
}

#[tactic(auto, using(crate::proofs::Packing::padded_next))]
pub fn padded_length(flags: u8, n: usize) -> usize
    requires { n ≤ 255 }
    ensures { result ≡ padded_length flags n }
{
    let padded = n.max(16).next_multiple_of(multiple_of(flags));
    if padded <= 255 { padded } else { n }
}

// A name with its padding: past its bytes stand zeros.
#[tactic(auto, using(crate::proofs::Packing::packed_padded, crate::proofs::Padding::pad_fits))]
fn pad(flags: u8, name: &[u8]) -> Name
    requires { length name.now ≤ 255 }
    ensures { result ≡ packed (padded flags name.now) }
{
    let len = padded_length(flags, name.len()) as u8;
    Name {
        len,
        ..Name::new(name)
    }
}

// Stored names

// A plain name as it is stored under the names key of its directory, which is the start of a derived key. That a name has at most 255 bytes stays a `requires`, here and
// above: docs/CLAIMS.md names this function and `names::stored_name`, and a type that holds the fact would ask more of who has a slice.
pub fn encrypt_name(key: &[u8], flags: u8, name: &[u8]) -> Name
    requires { length name.now ≤ 255 }
    ensures { result ≡ packed (Names.encrypted fscrypt key.now flags name.now) }
{
    let Name { len, mut bytes } = pad(flags, name);
    ciphers::cts_encrypt(key, &mut bytes[..usize::from(len)]);
    Name { len, bytes }
}

fn first_nul(bytes: &[u8]) -> usize
    ensures { result ≡ first_at is_nul bytes.now }
{
    bytes.iter().position(|&b| b == 0).unwrap_or(bytes.len())
}

fn is_all_nul(bytes: &[u8]) -> bool
    ensures { result ≡ is_all_nul bytes.now }
{
    bytes.iter().all(|&b| b == 0)
}

// The plain name that was padded to these bytes, or EUCLEAN.
#[tactic(auto, using(crate::proofs::Packing::read_parts, lists::proofs::Tables::first_at_le))]
fn read_padded(flags: u8, bytes: &[u8]) -> Result<Name, Errno>
    requires { length bytes.now ≤ 255 }
    ensures { result ≡ read_padded flags bytes.now }
{
    let (name, rest) = bytes.split_at(first_nul(bytes));
    if !is_all_nul(rest)
        || check_name(name).is_err()
        || padded_length(flags, name.len()) != bytes.len()
    {
        return Err(Errno::EUCLEAN);
    }
    Ok(Name::new(name))
}

// A stored name as it is read under the names key of its directory.
pub fn decrypt_name(key: &[u8], flags: u8, stored: Name) -> Result<Name, Errno>
    ensures { result ≡ read_padded flags (decrypt_name key.now (name_bytes stored)) }
{
    let Name { len, mut bytes } = stored;
    let text = &mut bytes[..usize::from(len)];
    ciphers::cts_decrypt(key, text);
    read_padded(flags, text)
}
