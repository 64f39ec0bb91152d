// Seal and open.
ghost use Rattle.std.specs.Prelude.{◌≡◌, true, false};
ghost use Rattle.fscrypt.specs.Cipher.{fscrypt};
ghost use Rattle.names.specs.Derived.{DerivedFor};
ghost use Rattle.volume.specs.Request.{outcome, done, seal, unseal};
ghost use Rattle.volume.specs.Lookup.{inode_at, lacks_key};
ghost use Rattle.volume.specs.Step.{effect};

use fscrypt::{DerivedKey, crypto};
use ids::InodeNumber;
use lookup::inodes;
use volume::Volume;

// What a file's contents are sealed by: the contents mode of its own policy, and its own derived key. The two facts it requires speak of the volume and the number together.
#[tactic(auto, using(volume::proofs::Passed::key_present_lem))]
fn contents_key(v: &Volume, i: InodeNumber) -> (u8, DerivedKey)
    requires key_held { lacks_key v.now (inode_at v.now i) ≡ false }
    requires is_encrypted { (inode_at v.now i).encrypted ≡ true }
    ensures mode { result.0 ≡ (inode_at v.now i).context.policy.contents }
    ensures key { DerivedFor fscrypt v.now (inode_at v.now i) result.1 }
{
    let node = inodes::inode_at(v, i);
    (node.context.policy.contents, names::derived_key(v, &node))
}

// A block of a file's contents, in place. To open is one call of another function: with that as a parameter it would be no plainer.
pub fn seal(v: &Volume, i: InodeNumber, number: u64, block: &mut [u8])
    requires key_held { lacks_key v.now (inode_at v.now i) ≡ false }
    requires is_encrypted { (inode_at v.now i).encrypted ≡ true }
    ensures { outcome done block.new v.now ≡ effect fscrypt v.now (seal i number block.old) }
{
    let (mode, key) = contents_key(v, i);
    crypto::seal_block(mode, key.as_bytes(), number, block);
}

pub fn open(v: &Volume, i: InodeNumber, number: u64, block: &mut [u8])
    requires key_held { lacks_key v.now (inode_at v.now i) ≡ false }
    requires is_encrypted { (inode_at v.now i).encrypted ≡ true }
    ensures { outcome done block.new v.now ≡ effect fscrypt v.now (unseal i number block.old) }
{
    let (mode, key) = contents_key(v, i);
    crypto::open_block(mode, key.as_bytes(), number, block);
}
