// The refusal chains: for each line of a table of volume/specs/Checks.antt a test, and for each table a function.
#![tactic(auto)]

pub mod contents;
pub mod directory;
pub mod keyring;
pub mod policies;
pub mod shared;
