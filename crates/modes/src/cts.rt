// CBC with ciphertext stealing CS3, the addendum to NIST SP 800-38A.
#![tactic(auto, unfolding(crate::specs::Cts::last_two, crate::specs::Cts::inv_last_two))]

ghost use Rattle.std.specs.Prelude.{◌≡◌, List, ℕ, ◌++◌, ◌-◌, ◌/◌, ◌≤◌, length, take};
ghost use Rattle.aes.specs.Schedule.{Schedule};
ghost use Rattle.aes.specs.declared.State.{State};
ghost use Rattle.aes.specs.Bytes.{state_bytes};
ghost use Rattle.modes.specs.Walk.{Going};
ghost use Rattle.modes.specs.Cbc.{cbc_step, cbc_next, cbc_inv_step, cbc_inv_next};
ghost use Rattle.modes.specs.Cts.{last_two, inv_last_two, filled, cs3};

use crate::cbc;
use aes::{Decipher, Encipher, KeySchedule, State};

// The second of two blocks, with the end of another one where it is short. That the two have 16 to 32 bytes stays a `requires`: they are a part of the caller's buffer.
#[tactic(auto, using(crate::proofs::CtsSteal::second_by))]
fn second(l: &[u8], other: State) -> State
    requires { (16 ≤ length l.now) × (length l.now ≤ 32) }
    ensures { result ≡ filled l.now 16 other }
{
    let mut bytes = [0; 32];
    other.store(&mut bytes, 16);
    bytes[..l.len()].copy_from_slice(l);
    State::load(&bytes, 16)
}

// Two blocks, the second cut to the room that there is.
#[tactic(auto, using(crate::proofs::CtsSteal::two_by))]
fn store_two(l: &mut [u8], first: State, second: State)
    requires { (16 ≤ length l.old) × (length l.old ≤ 32) }
    ensures { l.new ≡ state_bytes first ++ take (length l.old - 16) (state_bytes second) }
{
    let mut bytes = [0; 32];
    first.store(&mut bytes, 0);
    second.store(&mut bytes, 16);
    l.copy_from_slice(&bytes[..l.len()]);
}

// A direction of CBC-CS3: what becomes of the blocks before the last two, and of these.
pub trait Cs3 {
    ghost step: { Schedule → State → State → State };

    ghost next: { State → State → State → State };

    ghost last: { Schedule → State → List ℕ → List ℕ };

    // Whole blocks, in place, by CBC. The answer is the last ciphertext block.
    fn blocks(schedule: &KeySchedule, iv: State, l: &mut [u8]) -> State
        ensures { Going (step schedule.now) next l.old iv (length l.old / 16) l.new result };

    // The last two blocks, which come after the ciphertext block c and change order.
    fn last_two(schedule: &KeySchedule, c: State, l: &mut [u8])
        requires { (16 ≤ length l.old) × (length l.old ≤ 32) }
        ensures { l.new ≡ last schedule.now c l.old };
}

impl Cs3 for Encipher {
    ghost step = { λ k. cbc_step k.bytes k.rounds };

    ghost next = { cbc_next };

    ghost last = { λ k. last_two k.bytes k.rounds };

    fn blocks(schedule: &KeySchedule, iv: State, l: &mut [u8]) -> State {
        cbc::encrypt(schedule, iv, l)
    }

    // The last block is filled up with zeros, and of the one before it there is stored as much as there is room for.
    fn last_two(schedule: &KeySchedule, c: State, l: &mut [u8]) {
        let a = cbc::step(schedule, c, State::load(l, 0));
        let b = cbc::step(schedule, a, second(l, State::default()));
        store_two(l, b, a);
    }
}

impl Cs3 for Decipher {
    ghost step = { λ k. cbc_inv_step k.bytes k.rounds };

    ghost next = { cbc_inv_next };

    ghost last = { λ k. inv_last_two k.bytes k.rounds };

    fn blocks(schedule: &KeySchedule, iv: State, l: &mut [u8]) -> State {
        cbc::decrypt(schedule, iv, l)
    }

    // What was cut off stands at the end of the deciphered block.
    fn last_two(schedule: &KeySchedule, c: State, l: &mut [u8]) {
        let z = schedule.decipher(State::load(l, 0));
        let a = second(l, z);
        let p = cbc::inv_step(schedule, c, a);
        store_two(l, p, z ^ a);
    }
}

// CBC-CS3 of a text of 16 bytes or more, in place.
pub fn crypt<D: Cs3>(schedule: &KeySchedule, iv: State, l: &mut [u8])
    requires { 16 ≤ length l.old }
    ensures { l.new ≡ cs3 (D.step schedule.now) D.next (D.last schedule.now) iv l.old }
{
    if l.len() == 16 {
        D::blocks(schedule, iv, l);
        return;
    }
    // All blocks but the last two, of which the last has 1 to 16 bytes.
    let n = (l.len() - 17) / 16;
    let (blocks, last_two) = l.split_at_mut(16 * n);
    let c = D::blocks(schedule, iv, blocks);
    D::last_two(schedule, c, last_two);
}
