// The types of a volume (document 01's shelf) and of the answers. What each request does is said in specs/.
#![tactic(auto)]

ghost use Rattle.std.specs.Prelude.{◌≡◌, ◌≤◌, length};
ghost use Rattle.volume.specs.Volume.{no_key, no_inode, no_entry, name_of};

use errno::Errno;
use ids::{EntryNumber, InodeNumber};
use policy::Context;

// A slot of the keyring (document 01: ring): length 0 is a free one. The key is the first len bytes.
// No heap: a key stands by value in a slot of fixed size, so its length stands beside it.
#[derive(Clone, Copy)]
pub struct Key {
    pub len: u8,
    pub descriptor: [u8; 8],
    pub bytes: [u8; 64],
}

// A free slot: all zeros. By hand, as those below, so that the clause names the definition.
impl Default for Key {
    ghost is_default = { λ k. k ≡ no_key };

    fn default() -> Key {
        Key {
            len: 0,
            descriptor: lists::zeros(),
            bytes: lists::zeros(),
        }
    }
}

// The kinds of an inode, by document 01's numbers; a free record has kind 0. They stay numbers: `requests` take every value of `Volume`, of which those with other
// kinds than these are some (`Sound` of specs/Sound.antt excludes them, `Leaves` and the contracts do not), and an enum would ask more of a caller.
pub const FREE: u8 = 0;

pub const DIRECTORY: u8 = 1;

pub const REGULAR: u8 = 2;

pub const SYMLINK: u8 = 3;

pub const SPECIAL: u8 = 4;

// An inode (document 01: thing), of one of these kinds. It is encrypted if it has a context.
// `encrypted` is no Option: `requests` take also a volume whose inode is not encrypted and has bytes in `context`, and `Sound` says of a free one that it has none
// (`free_inodes`).
#[derive(Clone, Copy)]
pub struct Inode {
    pub kind: u8,
    pub encrypted: bool,
    pub context: Context,
}

// A free record: all zeros.
impl Default for Inode {
    ghost is_default = { λ i. i ≡ no_inode };

    fn default() -> Inode {
        Inode {
            kind: FREE,
            encrypted: false,
            context: policy::no_context(),
        }
    }
}

// A directory entry (document 01: place): length 0 is a free one. The stored name is the first len bytes. No heap: as a key's.
#[derive(Clone, Copy)]
pub struct Entry {
    pub len: u8,
    pub parent: InodeNumber,
    pub inode: InodeNumber,
    pub name: [u8; 255],
}

// A free record: all zeros.
impl Default for Entry {
    ghost is_default = { λ e. e ≡ no_entry };

    fn default() -> Entry {
        Entry {
            len: 0,
            parent: InodeNumber(0),
            inode: InodeNumber(0),
            name: lists::zeros(),
        }
    }
}

impl Entry {
    // The stored name.
    pub fn name(&self) -> &[u8]
        ensures name { result.now ≡ name_of self.now }
        ensures fits { length result.now ≤ 255 }
    {
        &self.name[..usize::from(self.len)]
    }
}

// How many keys, inodes and directory entries there is room for: key_slots, inode_slots and entry_slots of specs/Volume.antt.
pub const KEY_SLOTS: usize = 8;

pub const INODE_SLOTS: usize = 64;

pub const ENTRY_SLOTS: usize = 64;

// A volume (document 01: shelf).
#[derive(Clone, Copy)]
pub struct Volume {
    pub keys: [Key; KEY_SLOTS],
    pub inodes: [Inode; INODE_SLOTS],
    pub entries: [Entry; ENTRY_SLOTS],
}

// What a request that changes the volume comes to: its answer or the refusal, and the volume then. A refusal leaves the volume.
#[derive(Clone, Copy)]
pub struct Changed<T> {
    pub answer: Result<T, Errno>,
    pub volume: Volume,
}

// What create answers: the new inode and entry.
#[derive(Clone, Copy)]
pub struct Created {
    pub inode: InodeNumber,
    pub entry: EntryNumber,
}

// What get policy answers: the 12 bytes, which are zeros where it is refused.
// `policy_beside` of requests/specs/Answers.antt, a clause of `requests::get_policy`, says so of the bytes beside a refusal: so they stand beside the answer.
#[derive(Clone, Copy)]
pub struct PolicyOutcome {
    pub answer: Result<(), Errno>,
    pub policy: [u8; 12],
}

// How a name is shown: it is stored plain, it was decrypted (document 01: read with the key), or it was encoded (shown without it).
#[derive(Clone, Copy, Debug, PartialEq, Eq)]
pub enum Form {
    Plain,
    Decrypted,
    Encoded,
}

// What show answers beside the name, which it writes into the lent buffer: its first len bytes, since there is no heap to hand them out in.
#[derive(Clone, Copy)]
pub struct ShownEntry {
    pub parent: InodeNumber,
    pub inode: InodeNumber,
    pub kind: u8,
    pub form: Form,
    pub len: u8,
}

// What the climb from a directory towards the root meets first.
#[derive(Clone, Copy, Debug, PartialEq, Eq)]
pub enum Met {
    Moved,
    Root,
    // The steps ran out: on no volume that requests made.
    Neither,
}
