// Encryption policies and contexts, as Linux's fs/crypto/policy.c has them: their bytes, which are valid, and when two are the same.
#![tactic(auto)]

mod fields;

ghost use Rattle.std.specs.Prelude.{◌≡◌, ◌≤◌};
ghost use Rattle.policy.specs.Policies.{is_pair, is_master_key_size, name_key_size, is_valid, same_policy, no_policy, no_context, read_policy, read_context, ReadsPolicy, ReadsContext, policy_bytes, context_bytes};
ghost use Rattle.policy.specs.RoundTrips.{RoundTrips};
ghost use Rattle.policy.specs.Meanings.{PolicyMeanings};

use errno::Errno;

// A policy: what a directory's files are encrypted with.
#[derive(Clone, Copy, Debug, Default, PartialEq, Eq)]
pub struct Policy {
    pub version: u8,
    pub contents: u8,
    pub names: u8,
    pub flags: u8,
    pub descriptor: [u8; 8],
}

// A context: the policy of an inode, and the nonce of its own.
#[derive(Clone, Copy, Debug, Default, PartialEq, Eq)]
pub struct Context {
    pub policy: Policy,
    pub nonce: [u8; 16],
}

// The pairs of a contents mode and a names mode that are taken. The sizes of a further pair's keys stand in the two functions below.
#[tactic(auto, unfolding(crate::specs::Policies::is_pair))]
fn is_pair(contents: u8, names: u8) -> bool
    ensures { result ≡ is_pair contents names }
{
    contents == 1 && names == 4
}

// Whether a master key of this many bytes is what a policy asks for.
#[tactic(auto, unfolding(crate::specs::Policies::is_master_key_size))]
pub fn is_master_key_size(p: Policy, n: u8) -> bool
    ensures { result ≡ is_master_key_size p n }
{
    n == 64
}

// How many bytes of a derived key, the first ones, encrypt names.
#[tactic(auto, unfolding(crate::specs::Policies::name_key_size))]
pub fn name_key_size(p: Policy) -> usize
    ensures { (result ≡ name_key_size p) × (result ≤ 64) }
{
    32
}

#[tactic(auto, unfolding(crate::specs::Policies::is_valid))]
pub fn is_valid(p: Policy) -> bool
    ensures { result ≡ is_valid p }
{
    p.version == 0 && is_pair(p.contents, p.names) && p.flags <= 3
}

// Whether two policies are the same: version, modes, flags and descriptor count.
#[tactic(auto, using(lists::proofs::SameBytes::same_pointwise), unfolding(crate::specs::Policies::same_policy))]
pub fn same_policy(a: Policy, b: Policy) -> bool
    ensures { result ≡ same_policy a b }
{
    a == b
}

// All zeros, as in a freed record.
pub fn no_context() -> Context
    ensures { result ≡ no_context }
{
    Context::default()
}

// The policy in the 12 bytes of a policy, or the refusal of any other bytes.
impl TryFrom<&[u8]> for Policy {
    type Error = Errno;

    ghost try_from_gives = { λ bytes read. read ≡ read_policy bytes.now };

    #[tactic(auto, using(errno::proofs::Chains::line_case), unfolding(crate::specs::Policies::read_policy, crate::specs::Policies::policy_check))]
    fn try_from(bytes: &[u8]) -> Result<Policy, Errno> {
        if bytes.len() != 12 {
            return Err(Errno::EINVAL);
        }
        let policy = fields::policy_at(bytes[0], bytes);
        if !is_valid(policy) {
            return Err(Errno::EINVAL);
        }
        Ok(policy)
    }
}

// The context in the 28 bytes of a context, or the refusal of any other bytes.
impl TryFrom<&[u8]> for Context {
    type Error = Errno;

    ghost try_from_gives = { λ bytes read. read ≡ read_context bytes.now };

    #[tactic(auto, using(errno::proofs::Chains::line_case), unfolding(crate::specs::Policies::read_context, crate::specs::Policies::context_check, crate::specs::Policies::context_at))]
    fn try_from(bytes: &[u8]) -> Result<Context, Errno> {
        if bytes.len() != 28 || bytes[0] != 1 {
            return Err(Errno::EINVAL);
        }
        let policy = fields::policy_at(0, bytes);
        if !is_valid(policy) {
            return Err(Errno::EINVAL);
        }
        let nonce = bytes[12..].try_into().unwrap();
        Ok(Context { policy, nonce })
    }
}

// The 12 bytes of a policy.
impl From<Policy> for [u8; 12] {
    ghost from_gives = { λ p bytes. bytes ≡ policy_bytes p };

    fn from(p: Policy) -> [u8; 12] {
        let mut bytes = [0; 12];
        fields::put_fields(&mut bytes, p.version, p);
        bytes
    }
}

// The 28 bytes of a context.
impl From<Context> for [u8; 28] {
    ghost from_gives = { λ c bytes. bytes ≡ context_bytes c };

    fn from(c: Context) -> [u8; 28] {
        let mut bytes = [0; 28];
        fields::put_fields(&mut bytes, 1, c.policy);
        bytes[12..].copy_from_slice(&c.nonce);
        bytes
    }
}

// The same conversions by the names that docs/CLAIMS.md gives them.
pub fn read_policy(bytes: &[u8]) -> Result<Policy, Errno>
    ensures { ReadsPolicy bytes.now result }
{
    bytes.try_into()
}

pub fn read_context(bytes: &[u8]) -> Result<Context, Errno>
    ensures { ReadsContext bytes.now result }
{
    bytes.try_into()
}

pub fn policy_bytes(p: Policy) -> [u8; 12]
    ensures { result ≡ policy_bytes p }
{
    p.into()
}

pub fn context_bytes(c: Context) -> [u8; 28]
    ensures { result ≡ context_bytes c }
{
    c.into()
}

// What was written is read back, and what was read is written back, of contexts and of policies. The function does nothing: its `ensures` is the theorem.
pub fn bytes_round_trip()
    ensures { RoundTrips }
{}

// What the tests of policies mean, in plain predicates: two policies are the same exactly where they are equal; which are valid; which bytes are read, as what, and
// which refused. The function does nothing: its `ensures` is the theorem.
pub fn tests_mean()
    ensures { PolicyMeanings }
{}
