// Create, link, rename, exchange, remove, find, show.
#![tactic(auto, using(crate::proofs::Lines::lines), unfolding(volume::specs::Checks::create_check, volume::specs::Checks::link_check, volume::specs::Checks::rename_check, volume::specs::Checks::exchange_check, volume::specs::Checks::remove_check, volume::specs::Checks::find_check, volume::specs::Checks::show_check, volume::specs::Checks::is_bad_kind, names::specs::Shown::shown_read))]

ghost use Rattle.std.specs.Prelude.{◌≡◌, cond, ◌≤◌, length};
ghost use Rattle.errno.specs.Refusals.{fine};
ghost use Rattle.fscrypt.specs.Cipher.{fscrypt};
ghost use Rattle.volume.specs.Lookup.{inode_at};
ghost use Rattle.volume.specs.Checks.{is_bad_kind, is_nonce_needed, nonce_check, room_check, create_check, linked_check, link_check, move_check, rename_check, swap_check, exchange_check, remove_check, find_check, show_check};

use crate::shared::{self, POLICY_REFUSAL};
use errno::Errno;
use fscrypt::fname;
use ids::{EntryNumber, InodeNumber};
use lookup::{climb, entries, inodes, keyring};
use volume::{DIRECTORY, Entry, FREE, SPECIAL, Volume};

// Create takes any number: which ones are kinds is a line of its table, after the name's, and no matter of a type.
fn is_bad_kind(kind: u64) -> bool
    ensures { result ≡ is_bad_kind kind }
{
    kind == u64::from(FREE) || u64::from(SPECIAL) < kind
}

// The nonce of a new inode, which needs one where it inherits a policy.
fn child_nonce_check(v: &Volume, p: InodeNumber, kind: u64, x: [u8; 16]) -> Result<(), Errno>
    ensures { result ≡ cond (is_nonce_needed (inode_at v.now p) kind) (nonce_check v.now x) fine }
{
    if inodes::is_nonce_needed(&inodes::inode_at(v, p), kind) {
        shared::nonce_check(v, x)
    } else {
        Ok(())
    }
}

// The end of create's table: the nonce, and room.
fn room_check(v: &Volume, p: InodeNumber, kind: u64, x: [u8; 16]) -> Result<(), Errno>
    ensures { result ≡ room_check v.now p kind x }
{
    child_nonce_check(v, p, kind, x)?;
    if inodes::free_inode(v).is_none() {
        return Err(Errno::ENOSPC);
    }
    if entries::free_entry(v).is_none() {
        return Err(Errno::ENOSPC);
    }
    Ok(())
}

pub fn create_check(
    v: &Volume,
    p: InodeNumber,
    kind: u64,
    name: &[u8],
    x: [u8; 16],
) -> Result<(), Errno>
    ensures { result ≡ create_check fscrypt v.now p kind name.now x }
{
    fname::check_name(name)?;
    if is_bad_kind(kind) {
        return Err(Errno::EINVAL);
    }
    shared::directory_check(v, p)?;
    if keyring::lacks_key(v, p) {
        return Err(Errno::ENOKEY);
    }
    if names::entry_of(v, p, name).is_some() {
        return Err(Errno::EEXIST);
    }
    room_check(v, p, kind, x)
}

// That a record is there, or a directory, is asked line by line, as each table has it.
// The end of link's table: the inode is there, and so is the directory.
fn linked_check(v: &Volume, i: InodeNumber, p: InodeNumber, name: &[u8]) -> Result<(), Errno>
    requires { length name.now ≤ 255 }
    ensures { result ≡ linked_check fscrypt v.now i p name.now }
{
    if inodes::inode_at(v, i).kind == DIRECTORY {
        return Err(Errno::EPERM);
    }
    if keyring::lacks_key(v, p) {
        return Err(Errno::ENOKEY);
    }
    if shared::is_refused_in(v, p, i) {
        return Err(POLICY_REFUSAL);
    }
    if names::entry_of(v, p, name).is_some() {
        return Err(Errno::EEXIST);
    }
    if entries::free_entry(v).is_none() {
        return Err(Errno::ENOSPC);
    }
    Ok(())
}

pub fn link_check(v: &Volume, i: InodeNumber, p: InodeNumber, name: &[u8]) -> Result<(), Errno>
    ensures { result ≡ link_check fscrypt v.now i p name.now }
{
    fname::check_name(name)?;
    if inodes::inode_at(v, i).kind == FREE {
        return Err(Errno::ENOENT);
    }
    shared::directory_check(v, p)?;
    linked_check(v, i, p, name)
}

// The end of rename's table: the inode of an entry moves from its directory to another, under a name.
fn move_check(v: &Volume, old: &Entry, p: InodeNumber, name: &[u8]) -> Result<(), Errno>
    requires { length name.now ≤ 255 }
    ensures { result ≡ move_check fscrypt v.now old.now.parent old.now.inode p name.now }
{
    shared::directory_check(v, p)?;
    if keyring::lacks_key(v, old.parent) {
        return Err(Errno::ENOKEY);
    }
    if keyring::lacks_key(v, p) {
        return Err(Errno::ENOKEY);
    }
    if shared::is_refused_in(v, p, old.inode) {
        return Err(POLICY_REFUSAL);
    }
    if climb::is_under_itself(v, old.inode, p) {
        return Err(Errno::EINVAL);
    }
    if names::entry_of(v, p, name).is_some() {
        return Err(Errno::EEXIST);
    }
    Ok(())
}

pub fn rename_check(v: &Volume, n: EntryNumber, p: InodeNumber, name: &[u8]) -> Result<(), Errno>
    ensures { result ≡ rename_check fscrypt v.now n p name.now }
{
    fname::check_name(name)?;
    let old = entries::entry_at(v, n);
    if old.len == 0 {
        return Err(Errno::ENOENT);
    }
    move_check(v, &old, p, name)
}

// The end of exchange's table: the inode of each entry goes to the directory of the other, stage by stage.
fn swap_check(v: &Volume, one: &Entry, other: &Entry) -> Result<(), Errno>
    ensures { result ≡ swap_check v.now one.now.parent one.now.inode other.now.parent other.now.inode }
{
    if keyring::lacks_key(v, one.parent) {
        return Err(Errno::ENOKEY);
    }
    if keyring::lacks_key(v, other.parent) {
        return Err(Errno::ENOKEY);
    }
    if shared::is_refused_in(v, one.parent, other.inode) {
        return Err(POLICY_REFUSAL);
    }
    if shared::is_refused_in(v, other.parent, one.inode) {
        return Err(POLICY_REFUSAL);
    }
    if climb::is_under_itself(v, one.inode, other.parent) {
        return Err(Errno::EINVAL);
    }
    if climb::is_under_itself(v, other.inode, one.parent) {
        return Err(Errno::EINVAL);
    }
    Ok(())
}

pub fn exchange_check(v: &Volume, a: EntryNumber, b: EntryNumber) -> Result<(), Errno>
    ensures { result ≡ exchange_check v.now a b }
{
    let one = entries::entry_at(v, a);
    if one.len == 0 {
        return Err(Errno::ENOENT);
    }
    let other = entries::entry_at(v, b);
    if other.len == 0 {
        return Err(Errno::ENOENT);
    }
    swap_check(v, &one, &other)
}

pub fn remove_check(v: &Volume, n: EntryNumber) -> Result<(), Errno>
    ensures { result ≡ remove_check v.now n }
{
    let entry = entries::entry_at(v, n);
    if entry.len == 0 {
        return Err(Errno::ENOENT);
    }
    if entries::has_entries(v, entry.inode) {
        return Err(Errno::ENOTEMPTY);
    }
    Ok(())
}

pub fn find_check(v: &Volume, p: InodeNumber, name: &[u8]) -> Result<(), Errno>
    ensures { result ≡ find_check fscrypt v.now p name.now }
{
    fname::check_name(name)?;
    shared::directory_check(v, p)?;
    if keyring::lacks_key(v, p) {
        return Err(Errno::ENOKEY);
    }
    if names::entry_of(v, p, name).is_none() {
        return Err(Errno::ENOENT);
    }
    Ok(())
}

pub fn show_check(v: &Volume, n: EntryNumber, room: usize) -> Result<(), Errno>
    ensures { result ≡ show_check fscrypt v.now n room }
{
    if room < 255 {
        return Err(Errno::ERANGE);
    }
    let entry = entries::entry_at(v, n);
    if entry.len == 0 {
        return Err(Errno::ENOENT);
    }
    let dir = inodes::inode_at(v, entry.parent);
    names::shown_name(v, &dir, n, &entry)?;
    Ok(())
}
