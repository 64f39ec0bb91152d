// What each request does once its checks have passed. Each contract equates the outcome with `effect` of volume/specs/Step.antt.
#![tactic(auto, unfolding(volume::specs::Step::effect, volume::specs::Step::child_of, volume::specs::Step::without_unheld, volume::specs::DirectoryNames::form_in))]

pub mod contents;
pub mod directory;
pub mod keyring;
pub mod policies;
mod tables;
