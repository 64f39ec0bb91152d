// Create, link, rename, exchange, remove, find, show.
ghost use Rattle.std.specs.Prelude.{◌≡◌, [], false, ◌≤◌, ◌<◌, length};
ghost use Rattle.lists.specs.Bytes.{laid_over};
ghost use Rattle.fscrypt.specs.Cipher.{fscrypt};
ghost use Rattle.fscrypt.specs.Names.{name_bytes};
ghost use Rattle.volume.specs.Volume.{inode_slots, entry_slots, entry_slot};
ghost use Rattle.volume.specs.Request.{outcome, replied, create_answered, entry_answered, form_answered, show_answered, at, create, link, rename, exchange, remove, find, show};
ghost use Rattle.volume.specs.Lookup.{inode_at, lacks_key, free_inode, free_entry};
ghost use Rattle.volume.specs.DirectoryNames.{stored, form_in};
ghost use Rattle.volume.specs.Step.{with_inodes, child_of, without_unheld, effect};

use crate::tables;
use fscrypt::Name;
use ids::{EntryNumber, InodeNumber};
use lookup::{entries, inodes, keyring};
use std::mem;
use volume::{Changed, Created, ENTRY_SLOTS, Entry, Form, Inode, ShownEntry, Volume};

// A child of this directory: it inherits the policy, unless it is special.
fn new_inode(dir: &Inode, kind: u64, x: [u8; 16]) -> Inode
    requires { kind ≤ 4 }
    ensures { result ≡ child_of dir.now kind x }
{
    if inodes::is_nonce_needed(dir, kind) {
        inodes::encrypted_inode(kind as u8, dir.context.policy, x)
    } else {
        Inode {
            kind: kind as u8,
            ..Inode::default()
        }
    }
}

// An entry of this directory with this name, as the directory stores it. Here and below `key_held` stays a `requires`: it speaks of the very volume that comes in, so a
// type with it for an invariant would hold that volume, which the effects change.
fn stored_entry(v: &Volume, parent: InodeNumber, inode: InodeNumber, name: &[u8]) -> Entry
    requires name_fits { length name.now ≤ 255 }
    requires key_held { lacks_key v.now (inode_at v.now parent) ≡ false }
    ensures { result ≡ entry_slot parent inode (stored fscrypt v.now (inode_at v.now parent) name.now) }
{
    let dir = inodes::inode_at(v, parent);
    let Name { len, bytes } = names::stored_name(v, &dir, name);
    Entry {
        len,
        parent,
        inode,
        name: bytes,
    }
}

pub fn create(
    mut v: Volume,
    p: InodeNumber,
    kind: u64,
    name: &[u8],
    x: [u8; 16],
) -> Changed<Created>
    requires name_fits { length name.now ≤ 255 }
    requires key_held { lacks_key v (inode_at v p) ≡ false }
    requires kind_known { kind ≤ 4 }
    requires inode_free { free_inode v < inode_slots }
    requires entry_free { free_entry v < entry_slots }
    ensures { outcome (create_answered result.answer) [] result.volume ≡ effect fscrypt v (create p kind name.now x) }
{
    let inode = inodes::free_inode(&v).unwrap();
    let entry = entries::free_entry(&v).unwrap();
    let node = new_inode(&inodes::inode_at(&v, p), kind, x);
    let e = stored_entry(&v, p, inode, name);
    tables::put_inode(&mut v, inode, node);
    tables::put_entry(&mut v, entry, e);
    Changed {
        answer: Ok(Created { inode, entry }),
        volume: v,
    }
}

pub fn link(mut v: Volume, i: InodeNumber, p: InodeNumber, name: &[u8]) -> Changed<EntryNumber>
    requires name_fits { length name.now ≤ 255 }
    requires key_held { lacks_key v (inode_at v p) ≡ false }
    requires entry_free { free_entry v < entry_slots }
    ensures { outcome (entry_answered result.answer) [] result.volume ≡ effect fscrypt v (link i p name.now) }
{
    let entry = entries::free_entry(&v).unwrap();
    let e = stored_entry(&v, p, i, name);
    tables::put_entry(&mut v, entry, e);
    Changed {
        answer: Ok(entry),
        volume: v,
    }
}

pub fn rename(mut v: Volume, n: EntryNumber, p: InodeNumber, name: &[u8]) -> Changed<()>
    requires name_fits { length name.now ≤ 255 }
    requires key_held { lacks_key v (inode_at v p) ≡ false }
    ensures { outcome (replied result.answer) [] result.volume ≡ effect fscrypt v (rename n p name.now) }
{
    let old = entries::entry_at(&v, n);
    let e = stored_entry(&v, p, old.inode, name);
    tables::put_entry(&mut v, n, e);
    Changed {
        answer: Ok(()),
        volume: v,
    }
}

// The names stay; each entry gets the other's inode.
pub fn exchange(mut v: Volume, a: EntryNumber, b: EntryNumber) -> Changed<()>
    ensures { outcome (replied result.answer) [] result.volume ≡ effect fscrypt v (exchange a b) }
{
    let mut one = entries::entry_at(&v, a);
    let mut other = entries::entry_at(&v, b);
    mem::swap(&mut one.inode, &mut other.inode);
    tables::put_entry(&mut v, a, one);
    tables::put_entry(&mut v, b, other);
    Changed {
        answer: Ok(()),
        volume: v,
    }
}

// The volume without an inode that no entry holds any more.
fn without_unheld(mut v: Volume, i: InodeNumber) -> Volume
    ensures { result ≡ with_inodes v (without_unheld v.inodes v.entries i) }
{
    if !entries::is_held(&v.entries, i) {
        tables::put_inode(&mut v, i, Inode::default());
    }
    v
}

// The freed records are all zeros.
pub fn remove(mut v: Volume, n: EntryNumber) -> Changed<()>
    ensures { outcome (replied result.answer) [] result.volume ≡ effect fscrypt v (remove n) }
{
    let e = entries::entry_at(&v, n);
    tables::put_entry(&mut v, n, Entry::default());
    Changed {
        answer: Ok(()),
        volume: without_unheld(v, e.inode),
    }
}

// The entry of this name; where there is none, the number of slots, as `effect` says. The volume comes by value: behind a reference that its table has so many is not
// known before it is read.
#[tactic(auto, using(crate::proofs::Showing::found_or_slots), unfolding(volume::specs::Step::effect))]
pub fn find(v: Volume, p: InodeNumber, name: &[u8]) -> EntryNumber
    requires name_fits { length name.now ≤ 255 }
    requires key_held { lacks_key v (inode_at v p) ≡ false }
    ensures { outcome (at result) [] v ≡ effect fscrypt v (find p name.now) }
{
    names::entry_of(&v, p, name).unwrap_or(EntryNumber(ENTRY_SLOTS as u64))
}

// How names of this directory are shown.
fn form_in(v: &Volume, dir: &Inode) -> Form
    ensures { form_answered result ≡ form_in v.now dir.now }
{
    if !dir.encrypted {
        Form::Plain
    } else if keyring::key_present(v, dir) {
        Form::Decrypted
    } else {
        Form::Encoded
    }
}

// Copies a name to the buffer's start.
fn copy_name(buf: &mut [u8], n: Name)
    requires { 255 ≤ length buf.old }
    ensures { buf.new ≡ laid_over buf.old (name_bytes n) }
{
    let bytes = n.as_bytes();
    buf[..bytes.len()].copy_from_slice(bytes);
}

// What is shown of an entry, and the name at the buffer's start: no byte of one that cannot be read.
#[tactic(auto, using(crate::proofs::Showing::name_shown, fscrypt::proofs::Padding::name_bytes_packed), unfolding(volume::specs::Step::effect))]
pub fn show(v: &Volume, n: EntryNumber, buf: &mut [u8]) -> ShownEntry
    requires { 255 ≤ length buf.old }
    ensures { outcome (show_answered (Ok result)) buf.new v.now ≡ effect fscrypt v.now (show n buf.old) }
{
    let e = entries::entry_at(v, n);
    let dir = inodes::inode_at(v, e.parent);
    let name = names::shown_name(v, &dir, n, &e).unwrap_or(Name::new(b""));
    copy_name(buf, name);
    ShownEntry {
        parent: e.parent,
        inode: e.inode,
        kind: inodes::inode_at(v, e.inode).kind,
        form: form_in(v, &dir),
        len: name.len,
    }
}
