// Set policy, get policy.
ghost use Rattle.std.specs.Prelude.{◌≡◌, []};
ghost use Rattle.fscrypt.specs.Cipher.{fscrypt};
ghost use Rattle.volume.specs.Request.{outcome, replied, policy_is, set_policy, get_policy};
ghost use Rattle.volume.specs.Step.{effect};

use crate::tables;
use ids::InodeNumber;
use lookup::inodes;
use volume::{Changed, DIRECTORY, Volume};

// An inode that is encrypted already keeps its context. Bytes that are no policy count as one of zeros, as `effect` says; the check lets none through.
pub fn set_policy(mut v: Volume, i: InodeNumber, bytes: &[u8], x: [u8; 16]) -> Changed<()>
    ensures { outcome (replied result.answer) [] result.volume ≡ effect fscrypt v (set_policy i bytes.now x) }
{
    if !inodes::inode_at(&v, i).encrypted {
        // `unwrap_or_default` was tried: the derived clause does not come to `no_policy` in the search.
        let p = policy::read_policy(bytes).unwrap_or(policy::no_context().policy);
        let dir = inodes::encrypted_inode(DIRECTORY, p, x);
        tables::put_inode(&mut v, i, dir);
    }
    Changed {
        answer: Ok(()),
        volume: v,
    }
}

pub fn get_policy(v: &Volume, i: InodeNumber) -> [u8; 12]
    ensures { outcome (policy_is result) [] v.now ≡ effect fscrypt v.now (get_policy i) }
{
    policy::policy_bytes(inodes::inode_at(v, i).context.policy)
}
