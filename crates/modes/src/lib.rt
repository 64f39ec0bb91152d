// Modes of operation over AES: ECB, CBC, CBC-CS3 and XTS, each over any key schedule.
#![tactic(auto)]

pub mod blocks;
pub mod cbc;
pub mod cts;
pub mod ecb;
mod walk;
pub mod xts;
