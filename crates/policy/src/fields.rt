// The fields of a policy and of a context in their bytes.
ghost use Rattle.std.specs.Prelude.{◌≡◌, ◌≤◌, length};
ghost use Rattle.lists.specs.Bytes.{laid_over};
ghost use Rattle.policy.specs.Policies.{policy_at, field_bytes};

use crate::Policy;

// A policy of this version, whose modes, flags and descriptor stand in the bytes from 1 to 11.
#[tactic(auto, unfolding(crate::specs::Policies::policy_at))]
pub fn policy_at(version: u8, bytes: &[u8]) -> Policy
    requires { 12 ≤ length bytes.now }
    ensures { result ≡ policy_at version bytes.now }
{
    Policy {
        version,
        contents: bytes[1],
        names: bytes[2],
        flags: bytes[3],
        descriptor: bytes[4..12].try_into().unwrap(),
    }
}

// Writes the first byte, the modes, the flags and the descriptor to the start of a buffer: below both conversions, whose first bytes differ.
pub fn put_fields(out: &mut [u8], first: u8, p: Policy)
    requires { 12 ≤ length out.old }
    ensures { out.new ≡ laid_over out.old (field_bytes first p) }
{
    out[..4].copy_from_slice(&[first, p.contents, p.names, p.flags]);
    out[4..12].copy_from_slice(&p.descriptor);
}
