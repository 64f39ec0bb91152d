// Directory entries: which has a number, where there is room, which a directory has, which has a name there, and which holds an inode.
ghost use Rattle.std.specs.Prelude.{◌≡◌};
ghost use Rattle.lists.specs.Bytes.{same};
ghost use Rattle.fscrypt.specs.Names.{name_bytes};
ghost use Rattle.volume.specs.Volume.{name_of};
ghost use Rattle.volume.specs.Lookup.{entry_at, is_vacant, free_entry, is_in, is_named, entry_named, first_child, has_entries, is_link, first_link, is_held};
ghost use Rattle.lookup.specs.Found.{entry_found};

use fscrypt::Name;
use ids::{EntryNumber, InodeNumber};
use volume::{ENTRY_SLOTS, Entry, Volume};

// The entry of this number, and a free record where there is none, as `entry_at` of volume/specs/Lookup.antt has it: the checks refuse it as they do a free one, so it is
// no Option. Here and in the searches, inodes have a line of their own in inodes.rt: one over both tables would take the table and the type of its numbers, and a helper
// over the test would have to promise what its closure finds; neither is shorter.
pub fn entry_at(v: &Volume, n: EntryNumber) -> Entry
    ensures { result ≡ entry_at v.now n }
{
    v.entries.get(n.0 as usize).copied().unwrap_or_default()
}

// A record is free if its name has no bytes.
fn is_vacant(e: &Entry) -> bool
    ensures { result ≡ is_vacant e.now }
{
    e.len == 0
}

// The lowest free number.
pub fn free_entry(v: &Volume) -> Option<EntryNumber>
    ensures { result ≡ entry_found (free_entry v.now) }
{
    v.entries
        .iter()
        .position(is_vacant)
        .map(|i| EntryNumber(i as u64))
}

// Whether the entry is in use and stands in this directory.
fn is_in(e: &Entry, p: InodeNumber) -> bool
    ensures { result ≡ is_in p e.now }
{
    !is_vacant(e) && e.parent == p
}

// The first entry of this directory.
pub fn first_child(v: &Volume, p: InodeNumber) -> Option<EntryNumber>
    ensures { result ≡ entry_found (first_child v.now p) }
{
    v.entries
        .iter()
        .position(|e| is_in(e, p))
        .map(|i| EntryNumber(i as u64))
}

// Whether this directory has entries.
pub fn has_entries(v: &Volume, p: InodeNumber) -> bool
    ensures { result ≡ has_entries v.now p }
{
    first_child(v, p).is_some()
}

// Whether the entry has this stored name, byte for byte.
fn same_name(e: &Entry, s: &Name) -> bool
    ensures { result ≡ same (name_of e.now) (name_bytes s.now) }
{
    e.name() == s.as_bytes()
}

// Whether the entry is in use, stands in this directory and has this stored name.
fn is_named(e: &Entry, p: InodeNumber, s: &Name) -> bool
    ensures { result ≡ is_named p (name_bytes s.now) e.now }
{
    is_in(e, p) && same_name(e, s)
}

// The entry of this directory with this stored name.
pub fn entry_named(v: &Volume, p: InodeNumber, s: &Name) -> Option<EntryNumber>
    ensures { result ≡ entry_found (entry_named v.now p (name_bytes s.now)) }
{
    v.entries
        .iter()
        .position(|e| is_named(e, p, s))
        .map(|i| EntryNumber(i as u64))
}

// Whether the entry is in use and holds this inode.
pub(crate) fn is_link(e: &Entry, i: InodeNumber) -> bool
    ensures { result ≡ is_link i e.now }
{
    !is_vacant(e) && e.inode == i
}

// The first entry that holds this inode. It takes the table alone, so that one can be asked that an entry was taken out of.
pub fn first_link(entries: &[Entry; ENTRY_SLOTS], n: InodeNumber) -> Option<EntryNumber>
    ensures { result ≡ entry_found (first_link entries.now n) }
{
    entries
        .iter()
        .position(|e| is_link(e, n))
        .map(|i| EntryNumber(i as u64))
}

// Whether an entry holds this inode.
pub fn is_held(entries: &[Entry; ENTRY_SLOTS], n: InodeNumber) -> bool
    ensures { result ≡ is_held entries.now n }
{
    first_link(entries, n).is_some()
}
