// The fscrypt rules over the ciphers. As in Linux's fs/crypto: derived keys (keysetup), contents (crypto), and names as they are stored and read (fname). And
// stored names as they are shown without their key (encode). The crates above call these once their own checks have passed, so some have a `requires`.
#![tactic(auto)]

pub mod crypto;
pub mod encode;
pub mod fname;
pub mod keysetup;

ghost use Rattle.std.specs.Prelude.{◌≡◌, ◌≤◌, length};
ghost use Rattle.fscrypt.specs.Keys.{derived_bytes};
ghost use Rattle.fscrypt.specs.Names.{name_bytes, packed};
ghost use Rattle.fscrypt.specs.Meanings.{NameMeanings};

// A derived key by value: the first len bytes. It is as long as its master key. No heap: so its length stands beside an array of fixed size, as a name's does.
#[derive(Clone, Copy, Debug, PartialEq, Eq)]
pub struct DerivedKey {
    pub len: u8,
    pub bytes: [u8; 64],
}

// A name by value: the first len bytes, and zeros.
#[derive(Clone, Copy, Debug, PartialEq, Eq)]
pub struct Name {
    pub len: u8,
    pub bytes: [u8; 255],
}

impl DerivedKey {
    // The key itself.
    pub fn as_bytes(&self) -> &[u8]
        requires { self.now.len ≤ 64 }
        ensures { result.now ≡ derived_bytes self.now }
    {
        &self.bytes[..usize::from(self.len)]
    }
}

impl Name {
    // The name of these bytes.
    #[tactic(auto, using(lists::proofs::ByteStrings::drop_zeros))]
    pub fn new(bytes: &[u8]) -> Name
        requires { length bytes.now ≤ 255 }
        ensures { result ≡ packed bytes.now }
    {
        let mut padded = lists::zeros();
        padded[..bytes.len()].copy_from_slice(bytes);
        Name {
            len: bytes.len() as u8,
            bytes: padded,
        }
    }

    // The bytes of the name, without the zeros.
    pub fn as_bytes(&self) -> &[u8]
        ensures { result.now ≡ name_bytes self.now }
    {
        let len = usize::from(self.len);
        &self.bytes[..len]
    }
}

// What the definitions of names mean: which are plain, how they are padded, read and shown. The function does nothing: its `ensures` is the theorem.
pub fn names_mean()
    ensures { NameMeanings }
{}
