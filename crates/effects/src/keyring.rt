// Add key, remove key.
ghost use Rattle.std.specs.Prelude.{◌≡◌, [], ◌≤◌, ◌<◌, length};
ghost use Rattle.fscrypt.specs.Cipher.{fscrypt};
ghost use Rattle.volume.specs.Volume.{key_slots, key_slot};
ghost use Rattle.volume.specs.Request.{outcome, replied, add_key, remove_key};
ghost use Rattle.volume.specs.Lookup.{free_key_slot, key_slot_of};
ghost use Rattle.volume.specs.Step.{effect};

use lookup::keyring;
use volume::{Changed, Key, Volume};

// A slot of the keyring with this key: two lines like those of `Name::new`, with another record around them.
#[tactic(auto, using(lists::proofs::ByteStrings::drop_zeros))]
fn new_key(descriptor: [u8; 8], key: &[u8]) -> Key
    requires { length key.now ≤ 64 }
    ensures { result ≡ key_slot descriptor key.now }
{
    let mut bytes = lists::zeros();
    bytes[..key.len()].copy_from_slice(key);
    Key {
        len: key.len() as u8,
        descriptor,
        bytes,
    }
}

pub fn add_key(mut v: Volume, d: [u8; 8], key: &[u8]) -> Changed<()>
    requires key_fits { length key.now ≤ 64 }
    requires slot_free { free_key_slot v < key_slots }
    ensures { outcome (replied result.answer) key.now result.volume ≡ effect fscrypt v (add_key d key.now) }
{
    let i = keyring::free_key(&v).unwrap();
    v.keys[i] = new_key(d, key);
    Changed {
        answer: Ok(()),
        volume: v,
    }
}

// The freed slot is all zeros.
pub fn remove_key(mut v: Volume, d: [u8; 8]) -> Changed<()>
    requires { key_slot_of v d < key_slots }
    ensures { outcome (replied result.answer) [] result.volume ≡ effect fscrypt v (remove_key d) }
{
    let i = keyring::key_slot(&v, d).unwrap();
    v.keys[i] = Key::default();
    Changed {
        answer: Ok(()),
        volume: v,
    }
}
