// ECB of whole blocks, NIST SP 800-38A section 6.1.
ghost use Rattle.std.specs.Prelude.{◌≡◌, ◌*◌, ◌/◌, length};
ghost use Rattle.modes.specs.Ecb.{ecb_blocks};

use crate::walk::walk;
use aes::{KeySchedule, State};

// Each block by itself, in place: what is carried from one to the next plays no part.
pub fn encrypt(schedule: &KeySchedule, l: &mut [u8])
    requires { length l.old ≡ 16 * (length l.old / 16) }
    ensures { l.new ≡ ecb_blocks schedule.now.bytes schedule.now.rounds l.old (length l.old / 16) }
{
    walk(l, State::default(), |carried, p| {
        (schedule.encipher(p), carried)
    });
}
