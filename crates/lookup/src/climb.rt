// The climb from a directory towards the root, which finds whether a directory would be put under itself.
ghost use Rattle.std.specs.Prelude.{◌≡◌};
ghost use Rattle.volume.specs.Volume.{inode_slots};
ghost use Rattle.volume.specs.Lookup.{parent_of, climb_from, is_under_itself};

use crate::{entries, inodes};
use ids::InodeNumber;
use volume::{DIRECTORY, INODE_SLOTS, Met, Volume};

// The directory that an inode stands in: that of the first entry that holds it, and the root where there is none.
pub fn parent_of(v: &Volume, n: InodeNumber) -> InodeNumber
    ensures { result ≡ parent_of v.now n }
{
    v.entries
        .iter()
        .find(|e| entries::is_link(e, n))
        .map_or(InodeNumber(0), |e| e.parent)
}

// Climbs until the moved directory or the root is met, whichever is first. The steps are counted, so that it ends on any volume.
// It is a loop that yields by `break`: so docs/CLAIMS.md's list of forms has it.
pub fn climb(v: &Volume, moved: InodeNumber, from: InodeNumber) -> Met
    ensures { result ≡ climb_from v.now moved inode_slots from }
{
    let mut at = from;
    let mut left = INODE_SLOTS;
    loop {
        if at == moved {
            break Met::Moved;
        }
        // The root is number 0, as `climb_from` has it.
        if at.0 == 0 {
            break Met::Root;
        }
        if left == 0 {
            break Met::Neither;
        }
        at = parent_of(v, at);
        left -= 1;
    }
}

// Whether a directory would be put under itself: the climb from its new parent, that parent included, meets it.
#[tactic(auto, unfolding(volume::specs::Lookup::is_under_itself))]
pub fn is_under_itself(v: &Volume, moved: InodeNumber, parent: InodeNumber) -> bool
    ensures { result ≡ is_under_itself v.now moved parent }
{
    inodes::inode_at(v, moved).kind == DIRECTORY && matches!(climb(v, moved, parent), Met::Moved)
}
