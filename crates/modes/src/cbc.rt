// CBC of whole blocks, NIST SP 800-38A section 6.2.
#![tactic(auto, unfolding(crate::specs::Cbc::cbc_step, crate::specs::Cbc::cbc_inv_step))]

ghost use Rattle.std.specs.Prelude.{◌≡◌, ◌/◌, length};
ghost use Rattle.modes.specs.Walk.{Going};
ghost use Rattle.modes.specs.Cbc.{cbc_step, cbc_next, cbc_inv_step, cbc_inv_next};

use crate::walk::walk;
use aes::{KeySchedule, State};

// The block p, after the ciphertext block c.
pub(crate) fn step(schedule: &KeySchedule, c: State, p: State) -> State
    ensures { result ≡ cbc_step schedule.now.bytes schedule.now.rounds c p }
{
    schedule.encipher(p ^ c)
}

pub(crate) fn inv_step(schedule: &KeySchedule, c: State, o: State) -> State
    ensures { result ≡ cbc_inv_step schedule.now.bytes schedule.now.rounds c o }
{
    schedule.decipher(o) ^ c
}

// Two functions, since what is carried on differs.
// The whole blocks of a buffer, in place. The answer is the last ciphertext block: the one that a further block comes after.
pub fn encrypt(schedule: &KeySchedule, iv: State, l: &mut [u8]) -> State
    ensures { Going (cbc_step schedule.now.bytes schedule.now.rounds) cbc_next l.old iv (length l.old / 16) l.new result }
{
    walk(l, iv, |c, p| {
        let o = step(schedule, c, p);
        (o, o)
    })
}

pub fn decrypt(schedule: &KeySchedule, iv: State, l: &mut [u8]) -> State
    ensures { Going (cbc_inv_step schedule.now.bytes schedule.now.rounds) cbc_inv_next l.old iv (length l.old / 16) l.new result }
{
    walk(l, iv, |c, o| (inv_step(schedule, c, o), o))
}
