// The keyring: which key has a descriptor, where there is room, and whether the key of an inode is present.
ghost use Rattle.std.specs.Prelude.{◌≡◌};
ghost use Rattle.volume.specs.Lookup.{is_free_key, on_keyring, key_slot_of, free_key_slot, key_of, key_present, lacks_key, inode_at};
ghost use Rattle.lookup.specs.Found.{slot_found};

use crate::inodes;
use ids::InodeNumber;
use volume::{Inode, Key, Volume};

// A slot is free if its key has no bytes.
fn is_free_key(k: &Key) -> bool
    ensures { result ≡ is_free_key k.now }
{
    k.len == 0
}

// Whether the slot is in use and has this descriptor.
fn on_keyring(k: &Key, d: [u8; 8]) -> bool
    ensures { result ≡ on_keyring d k.now }
{
    !is_free_key(k) && k.descriptor == d
}

// The slot of the key with this descriptor.
pub fn key_slot(v: &Volume, d: [u8; 8]) -> Option<usize>
    ensures { result ≡ slot_found (key_slot_of v.now d) }
{
    v.keys.iter().position(|k| on_keyring(k, d))
}

// The lowest free slot.
pub fn free_key(v: &Volume) -> Option<usize>
    ensures { result ≡ slot_found (free_key_slot v.now) }
{
    v.keys.iter().position(is_free_key)
}

// The key with this descriptor, and a free slot where there is none: no Option, as an entry's.
pub fn key_of(v: &Volume, d: [u8; 8]) -> Key
    ensures { result ≡ key_of v.now d }
{
    v.keys
        .iter()
        .find(|k| on_keyring(k, d))
        .copied()
        .unwrap_or_default()
}

// Whether the key of this inode's policy is on the keyring and of the right size.
#[tactic(auto, unfolding(volume::specs::Lookup::key_present))]
pub fn key_present(v: &Volume, i: &Inode) -> bool
    ensures { result ≡ key_present v.now i.now }
{
    let policy = i.context.policy;
    policy::is_master_key_size(policy, key_of(v, policy.descriptor).len)
}

// Whether the inode of this number is encrypted and its key absent.
#[tactic(auto, unfolding(volume::specs::Lookup::lacks_key))]
pub fn lacks_key(v: &Volume, n: InodeNumber) -> bool
    ensures { result ≡ lacks_key v.now (inode_at v.now n) }
{
    let i = inodes::inode_at(v, n);
    i.encrypted && !key_present(v, &i)
}
