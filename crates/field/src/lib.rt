// Bytes as elements of the field GF(2^8), FIPS 197 section 4, and the S-box.
#![tactic(auto)]

pub mod gf;
pub mod sbox;
