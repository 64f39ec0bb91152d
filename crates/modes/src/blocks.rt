// The block that a number makes.
ghost use Rattle.std.specs.Prelude.{◌≡◌};
ghost use Rattle.modes.specs.Blocks.{number_block};

use aes::State;

// A data unit's number as a block, IEEE 1619 section 5.1: its lowest byte first, and eight zeros.
#[tactic(auto, using(crate::proofs::Numbers::number_read), unfolding(lists::specs::Bytes::zeros))]
pub fn number_block(n: u64) -> State
    ensures { result ≡ number_block n }
{
    let mut bytes = [0; 16];
    bytes[..8].copy_from_slice(&n.to_le_bytes());
    State::load(&bytes, 0)
}
