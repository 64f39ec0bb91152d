// Seal and open.
#![tactic(auto, using(crate::proofs::Lines::lines), unfolding(volume::specs::Checks::block_check))]

ghost use Rattle.std.specs.Prelude.{◌≡◌};
ghost use Rattle.volume.specs.Checks.{block_check};

use errno::Errno;
use ids::InodeNumber;
use lookup::{inodes, keyring};
use volume::{FREE, REGULAR, Volume};

pub fn block_check(v: &Volume, i: InodeNumber, n: usize) -> Result<(), Errno>
    ensures { result ≡ block_check v.now i n }
{
    if n != 4096 {
        return Err(Errno::EINVAL);
    }
    let node = inodes::inode_at(v, i);
    if node.kind == FREE {
        return Err(Errno::ENOENT);
    }
    if node.kind != REGULAR {
        return Err(Errno::EINVAL);
    }
    if !node.encrypted {
        return Err(Errno::ENODATA);
    }
    if keyring::lacks_key(v, i) {
        return Err(Errno::ENOKEY);
    }
    Ok(())
}
