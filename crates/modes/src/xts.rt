// XTS of whole blocks, IEEE 1619 section 5.
#![tactic(auto, unfolding(crate::specs::Xts::times_alpha, crate::specs::Xts::tweaked))]

ghost use Rattle.std.specs.Prelude.{◌≡◌, length};
ghost use Rattle.modes.specs.Xts.{tweaked, times_alpha, shifted_word, xts_aes};

use crate::walk::walk;
use aes::{BlockCipher, KeySchedule, State, Word};

// Four bytes of the tweak, moved up by one binary digit; low comes in at their low end.
#[tactic(auto, using(field::proofs::Xor::xor_is_sum), unfolding(crate::specs::Xts::shifted_word))]
fn shifted_word(w: Word, low: u8) -> Word
    ensures { result ≡ shifted_word w low }
{
    Word {
        r0: ((w.r0 % 128) * 2) ^ low,
        r1: ((w.r1 % 128) * 2) ^ (w.r0 / 128),
        r2: ((w.r2 % 128) * 2) ^ (w.r1 / 128),
        r3: ((w.r3 % 128) * 2) ^ (w.r2 / 128),
    }
}

// The next block's tweak: multiplication by α, IEEE 1619 section 5.2. The lowest byte is the first.
fn times_alpha(t: State) -> State
    ensures { result ≡ times_alpha t }
{
    State {
        c0: shifted_word(t.c0, (t.c3.r3 / 128) * 135),
        c1: shifted_word(t.c1, t.c0.r3 / 128),
        c2: shifted_word(t.c2, t.c1.r3 / 128),
        c3: shifted_word(t.c3, t.c2.r3 / 128),
    }
}

// XTS-AES-blockEnc and XTS-AES-blockDec, IEEE 1619 sections 5.3.1 and 5.4.1.
fn tweaked<C: BlockCipher>(schedule: &KeySchedule, t: State, p: State) -> State
    ensures { result ≡ tweaked (C.block schedule.now) t p }
{
    C::apply(schedule, p ^ t) ^ t
}

// XTS-AES-Enc and XTS-AES-Dec, IEEE 1619 sections 5.3.2 and 5.4.2, of a data unit of 4,096 bytes, in place; tweak is that of its first block.
pub fn crypt<C: BlockCipher>(schedule: &KeySchedule, tweak: State, l: &mut [u8])
    requires { length l.old ≡ 4096 }
    ensures { l.new ≡ xts_aes (C.block schedule.now) tweak 256 l.old }
{
    walk(l, tweak, |t, p| {
        (tweaked::<C>(schedule, t, p), times_alpha(t))
    });
}
