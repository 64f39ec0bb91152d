// Tests and chains that requests share.
#![tactic(auto, using(crate::proofs::Lines::lines), unfolding(volume::specs::Checks::directory_check, volume::specs::Checks::is_policy_refused, volume::specs::Checks::nonce_check))]

ghost use Rattle.std.specs.Prelude.{◌≡◌};
ghost use Rattle.volume.specs.Lookup.{inode_at};
ghost use Rattle.volume.specs.Checks.{directory_check, is_policy_refused, nonce_check};

use errno::Errno;
use ids::InodeNumber;
use lookup::inodes;
use volume::{DIRECTORY, FREE, Inode, SYMLINK, Volume};

// The policy refusal: policy_refusal of volume/specs/Checks.antt.
pub const POLICY_REFUSAL: Errno = Errno::EXDEV;

// Whether an encrypted directory would gain an inode that lacks its policy.
fn is_policy_refused(dir: &Inode, node: &Inode) -> bool
    ensures { result ≡ is_policy_refused dir.now node.now }
{
    dir.encrypted
        && node.kind <= SYMLINK
        && !(node.encrypted && policy::same_policy(node.context.policy, dir.context.policy))
}

pub fn is_refused_in(v: &Volume, p: InodeNumber, n: InodeNumber) -> bool
    ensures { result ≡ is_policy_refused (inode_at v.now p) (inode_at v.now n) }
{
    let dir = inodes::inode_at(v, p);
    let node = inodes::inode_at(v, n);
    is_policy_refused(&dir, &node)
}

// Whether the parent exists and is a directory.
pub fn directory_check(v: &Volume, p: InodeNumber) -> Result<(), Errno>
    ensures { result ≡ directory_check v.now p }
{
    let dir = inodes::inode_at(v, p);
    if dir.kind == FREE {
        return Err(Errno::ENOENT);
    }
    if dir.kind != DIRECTORY {
        return Err(Errno::ENOTDIR);
    }
    Ok(())
}

// The check of a nonce that is needed: no inode now there bears it.
pub fn nonce_check(v: &Volume, x: [u8; 16]) -> Result<(), Errno>
    ensures { result ≡ nonce_check v.now x }
{
    if inodes::is_borne(v, x) {
        return Err(Errno::ENOTUNIQ);
    }
    Ok(())
}
