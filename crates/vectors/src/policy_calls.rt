// Policies and contexts: a request's bytes are read, and what was read is written back or compared.

use crate::answers;
use crate::answers::Failure;
use crate::arguments::{Words, room};
use std::io::Write;

// policy BYTES
pub fn on_policy(to: &mut impl Write, mut words: Words) -> Result<(), Failure> {
    let policy = words.byte_string()?;
    words.end()?;
    let mut bytes = room();
    let read = policy::read_policy(policy.lay(&mut bytes))?;
    answers::given(to, &policy::policy_bytes(read));
    Ok(())
}

// context BYTES. As one function with the policy's, over what reads the bytes, it got no proof: the bound `Fn` would name the size of an array.
pub fn on_context(to: &mut impl Write, mut words: Words) -> Result<(), Failure> {
    let context = words.byte_string()?;
    words.end()?;
    let mut bytes = room();
    let read = policy::read_context(context.lay(&mut bytes))?;
    answers::given(to, &policy::context_bytes(read));
    Ok(())
}

// same-policy BYTES BYTES: whether two policies are the same, or the refusal of the first that is no policy.
pub fn on_policies(to: &mut impl Write, mut words: Words) -> Result<(), Failure> {
    let one = words.byte_string()?;
    let other = words.byte_string()?;
    words.end()?;
    let mut bytes = room();
    let one = policy::read_policy(one.lay(&mut bytes))?;
    let other = policy::read_policy(other.lay(&mut bytes))?;
    answers::yes_or_no(to, policy::same_policy(one, other));
    Ok(())
}
