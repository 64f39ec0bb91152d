// Stores in the tables of a volume; a number that no record has changes nothing.
ghost use Rattle.std.specs.Prelude.{◌≡◌, set};
ghost use Rattle.volume.specs.Step.{with_inodes, with_entries};

use ids::{EntryNumber, InodeNumber};
use volume::{Entry, Inode, Volume};

// Puts a record at a number. A function for each table stands over it: docs/CLAIMS.md has stores take the number's own type.
fn put<T: Copy>(table: &mut [T], n: u64, x: T)
    ensures { table.new ≡ set table.old n x }
{
    if n < table.len() as u64 {
        table[n as usize] = x;
    }
}

pub fn put_inode(v: &mut Volume, n: InodeNumber, node: Inode)
    ensures { v.new ≡ with_inodes v.old (set v.old.inodes n.0 node) }
{
    put(&mut v.inodes, n.0, node);
}

pub fn put_entry(v: &mut Volume, n: EntryNumber, e: Entry)
    ensures { v.new ≡ with_entries v.old (set v.old.entries n.0 e) }
{
    put(&mut v.entries, n.0, e);
}
