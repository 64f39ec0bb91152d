// Inodes: which has a number, where there is room, and which bears a nonce.
ghost use Rattle.std.specs.Prelude.{◌≡◌};
ghost use Rattle.volume.specs.Volume.{encrypted_inode};
ghost use Rattle.volume.specs.Checks.{is_nonce_needed};
ghost use Rattle.volume.specs.Lookup.{inode_at, is_free, free_inode, bears_nonce, nonce_holder, is_borne};
ghost use Rattle.lookup.specs.Found.{inode_found};

use ids::InodeNumber;
use policy::{Context, Policy};
use volume::{FREE, Inode, SYMLINK, Volume};

// An inode with a context.
pub fn encrypted_inode(kind: u8, policy: Policy, nonce: [u8; 16]) -> Inode
    ensures { result ≡ encrypted_inode kind policy nonce }
{
    Inode {
        kind,
        encrypted: true,
        context: Context { policy, nonce },
    }
}

// The inode of this number, and a free record where there is none: no Option, as an entry's.
pub fn inode_at(v: &Volume, n: InodeNumber) -> Inode
    ensures { result ≡ inode_at v.now n }
{
    v.inodes.get(n.0 as usize).copied().unwrap_or_default()
}

// A record is free if its inode has no kind.
fn is_free(i: &Inode) -> bool
    ensures { result ≡ is_free i.now }
{
    i.kind == FREE
}

// The lowest free number.
pub fn free_inode(v: &Volume) -> Option<InodeNumber>
    ensures { result ≡ inode_found (free_inode v.now) }
{
    v.inodes
        .iter()
        .position(is_free)
        .map(|i| InodeNumber(i as u64))
}

// Whether the inode has a context with this nonce.
#[tactic(auto, using(lists::proofs::SameBytes::same_pointwise), unfolding(volume::specs::Lookup::bears_nonce))]
fn bears_nonce(i: &Inode, x: [u8; 16]) -> bool
    ensures { result ≡ bears_nonce x i.now }
{
    i.encrypted && i.context.nonce == x
}

// The first inode that bears this nonce.
pub fn nonce_holder(v: &Volume, x: [u8; 16]) -> Option<InodeNumber>
    ensures { result ≡ inode_found (nonce_holder v.now x) }
{
    v.inodes
        .iter()
        .position(|i| bears_nonce(i, x))
        .map(|i| InodeNumber(i as u64))
}

// Whether an inode bears this nonce.
pub fn is_borne(v: &Volume, x: [u8; 16]) -> bool
    ensures { result ≡ is_borne v.now x }
{
    nonce_holder(v, x).is_some()
}

// Whether a child of this directory has a context.
#[tactic(auto, unfolding(volume::specs::Checks::is_nonce_needed))]
pub fn is_nonce_needed(dir: &Inode, kind: u64) -> bool
    ensures { result ≡ is_nonce_needed dir.now kind }
{
    dir.encrypted && kind <= SYMLINK as u64
}
