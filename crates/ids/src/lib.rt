// The numbers by which requests name what stands on a volume: a type for each, so that neither passes for the other anywhere.
#![tactic(auto)]

// An inode's number (document 01: thing). Numbers are wide: one that names nothing is refused in its turn.
#[derive(Clone, Copy, Debug, PartialEq, Eq)]
pub struct InodeNumber(pub u64);

// A directory entry's number (document 01: place).
#[derive(Clone, Copy, Debug, PartialEq, Eq)]
pub struct EntryNumber(pub u64);
