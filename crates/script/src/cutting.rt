// The bytes of an input, cut into lines: a line's bytes gather at the start of a buffer, the caller's, which is of fixed size and no Vec (no heap).
ghost use Rattle.std.specs.Prelude.{◌≡◌, ◌≤◌, ◌<◌, length, take};
ghost use Rattle.script.specs.Cutting.{keep, Cuts};

use crate::words;

// What has been taken: how many bytes of the line the buffer holds, how many bytes that took of what came, and whether a newline ended the line.
// It is no Option or enum: the clause `Cuts` of `take_line` speaks of all three, with a newline and without.
#[derive(Clone, Copy, Debug, PartialEq, Eq)]
pub struct Cut {
    pub used: usize,
    pub taken: usize,
    pub ended: bool,
}

// Adds a byte to a line of `used` bytes, and returns how many the buffer holds then.
#[tactic(auto, using(crate::proofs::Keeping::stores))]
fn add_byte(line: &mut [u8], used: usize, b: u8) -> usize
    requires { (used ≤ length line.old) × (0 < length line.old) }
    ensures { (result ≤ length line.old) × (take result line.new ≡ keep (length line.old) (take used line.old) b) }
{
    if used < line.len() {
        line[used] = b;
        return used + 1;
    }
    let last = line.len() - 1;
    if words::is_blank(line[last]) {
        line[last] = b;
    } else if line[last] == b'\r' {
        line[last] = b'.';
    }
    used
}

// Takes the bytes up to the next newline, and the newline; all where there is none.
pub fn take_line(line: &mut [u8], used: usize, bytes: &[u8]) -> Cut
    requires { (used ≤ length line.old) × (0 < length line.old) }
    ensures { Cuts line.old used bytes.now line.new result }
{
    let newline = bytes.iter().position(|b| *b == b'\n');
    let end = newline.unwrap_or(bytes.len());
    let mut used = used;
    for &b in &bytes[..end] {
        used = add_byte(line, used, b);
    }
    Cut {
        used,
        taken: bytes.len().min(end + 1),
        ended: newline.is_some(),
    }
}
