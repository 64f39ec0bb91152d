// Names in the directories of a volume: as they are stored, and as they are shown.
#![tactic(auto)]

ghost use Rattle.std.specs.Prelude.{◌≡◌, true, false, ◌≤◌, length};
ghost use Rattle.fscrypt.specs.Cipher.{fscrypt};
ghost use Rattle.fscrypt.specs.Names.{packed};
ghost use Rattle.volume.specs.Volume.{name_of};
ghost use Rattle.volume.specs.Lookup.{inode_at, key_present, lacks_key, entry_named};
ghost use Rattle.volume.specs.DirectoryNames.{stored};
ghost use Rattle.lookup.specs.Found.{entry_found};
ghost use Rattle.names.specs.Derived.{DerivedFor};
ghost use Rattle.names.specs.Shown.{shown_read};

use errno::Errno;
use fscrypt::{DerivedKey, Name, encode, fname, keysetup};
use ids::{EntryNumber, InodeNumber};
use lookup::{entries, inodes, keyring};
use volume::{Entry, Inode, Key, Volume};

// The key derived for an inode whose master key is held. It is as long as that key.
pub fn derived_key(v: &Volume, n: &Inode) -> DerivedKey
    requires { key_present v.now n.now ≡ true }
    ensures { DerivedFor fscrypt v.now n.now result }
{
    let Key { len, mut bytes, .. } = keyring::key_of(v, n.context.policy.descriptor);
    keysetup::derive_key(&mut bytes[..len as usize], n.context.nonce);
    DerivedKey { len, bytes }
}

// A plain name as this directory stores it. `key_held` speaks of the volume and the directory together, so no type of one of them holds it.
pub fn stored_name(v: &Volume, dir: &Inode, name: &[u8]) -> Name
    requires name_fits { length name.now ≤ 255 }
    requires key_held { lacks_key v.now dir.now ≡ false }
    ensures { result ≡ packed (stored fscrypt v.now dir.now name.now) }
{
    if !dir.encrypted {
        return Name::new(name);
    }
    let policy = dir.context.policy;
    let key = derived_key(v, dir);
    fname::encrypt_name(
        &key.as_bytes()[..policy::name_key_size(policy)],
        policy.flags,
        name,
    )
}

// The entry that bears this name in the directory.
pub fn entry_of(v: &Volume, p: InodeNumber, name: &[u8]) -> Option<EntryNumber>
    requires name_fits { length name.now ≤ 255 }
    requires key_held { lacks_key v.now (inode_at v.now p) ≡ false }
    ensures { result ≡ entry_found (entry_named v.now p (stored fscrypt v.now (inode_at v.now p) name.now)) }
{
    let dir = inodes::inode_at(v, p);
    entries::entry_named(v, p, &stored_name(v, &dir, name))
}

// The stored name of an entry of this directory as it is shown, or EUCLEAN.
pub fn shown_name(v: &Volume, dir: &Inode, n: EntryNumber, e: &Entry) -> Result<Name, Errno>
    ensures { result ≡ shown_read fscrypt v.now dir.now n (name_of e.now) }
{
    let name = Name::new(e.name());
    if !dir.encrypted {
        return Ok(name);
    }
    if !keyring::key_present(v, dir) {
        return Ok(encode::encode_name(name, n));
    }
    let policy = dir.context.policy;
    let key = derived_key(v, dir);
    fname::decrypt_name(
        &key.as_bytes()[..policy::name_key_size(policy)],
        policy.flags,
        name,
    )
}
