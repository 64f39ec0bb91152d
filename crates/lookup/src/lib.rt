// Searches and reads of a volume's tables, and the climb towards the root. No function asks anything of its caller: any volume, any number.
#![tactic(auto)]

pub mod climb;
pub mod entries;
pub mod inodes;
pub mod keyring;
