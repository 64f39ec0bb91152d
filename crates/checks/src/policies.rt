// Set policy, get policy.
#![tactic(auto, using(crate::proofs::Lines::lines), unfolding(volume::specs::Checks::set_policy_check, volume::specs::Checks::get_policy_check))]

ghost use Rattle.std.specs.Prelude.{◌≡◌};
ghost use Rattle.volume.specs.Checks.{same_policy_check, first_policy_check, set_policy_check, get_policy_check};

use crate::shared;
use errno::Errno;
use ids::InodeNumber;
use lookup::{entries, inodes};
use policy::Policy;
use volume::{DIRECTORY, FREE, Inode, Volume};

// The policy of an inode that has one: the same one is fine.
fn same_policy_check(node: &Inode, p: Policy) -> Result<(), Errno>
    ensures { result ≡ same_policy_check node.now p }
{
    if !policy::same_policy(node.context.policy, p) {
        return Err(Errno::EEXIST);
    }
    Ok(())
}

// The policy of an inode that has none yet.
fn first_policy_check(v: &Volume, i: InodeNumber, x: [u8; 16]) -> Result<(), Errno>
    ensures { result ≡ first_policy_check v.now i x }
{
    // The root, by its number, as the table has it.
    if i.0 == 0 {
        return Err(Errno::EPERM);
    }
    if inodes::inode_at(v, i).kind != DIRECTORY {
        return Err(Errno::ENOTDIR);
    }
    if entries::has_entries(v, i) {
        return Err(Errno::ENOTEMPTY);
    }
    shared::nonce_check(v, x)
}

pub fn set_policy_check(v: &Volume, i: InodeNumber, bytes: &[u8], x: [u8; 16]) -> Result<(), Errno>
    ensures { result ≡ set_policy_check v.now i bytes.now x }
{
    let node = inodes::inode_at(v, i);
    if node.kind == FREE {
        return Err(Errno::ENOENT);
    }
    let p = policy::read_policy(bytes)?;
    if node.encrypted {
        same_policy_check(&node, p)
    } else {
        first_policy_check(v, i, x)
    }
}

pub fn get_policy_check(v: &Volume, i: InodeNumber) -> Result<(), Errno>
    ensures { result ≡ get_policy_check v.now i }
{
    let node = inodes::inode_at(v, i);
    if node.kind == FREE {
        return Err(Errno::ENOENT);
    }
    if !node.encrypted {
        return Err(Errno::ENODATA);
    }
    Ok(())
}
