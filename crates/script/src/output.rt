// The texts of answers, put into a buffer one after the other. Each function puts its text at a position, and returns the position after it.
// The buffer is the caller's, with no Vec or String to append to: no function of the repository has a heap.
// Buffer and position stay a pair: `Puts` is over it, and `vectors` writes to a buffer of its own.
// They are put by hand, and not by a Display and `write!`: that says what it wrote only where it answers Ok, and the clauses `Puts` fix each byte in every case.
ghost use Rattle.std.specs.Prelude.{[], ◌∷◌, ◌+◌, ◌*◌, ◌≤◌, ◌<◌, ◌≡◌, length};
ghost use Rattle.script.specs.Numbers.{last_digits, decimal};
ghost use Rattle.script.specs.Strings.{to_hex, is_all_graphic, name_text};
ghost use Rattle.script.specs.Text.{Puts};

// A text as it is.
pub fn put(out: &mut [u8], at: usize, s: &[u8]) -> usize
    requires { at + length s.now ≤ length out.old }
    ensures { Puts out.old at s.now out.new result }
{
    lists::copy_to(out, at, s);
    at + s.len()
}

fn put_byte(out: &mut [u8], at: usize, b: u8) -> usize
    requires { at < length out.old }
    ensures { Puts out.old at (b ∷ []) out.new result }
{
    out[at] = b;
    at + 1
}

// The last k digits of a number, or as many as it has. It calls itself, as the digits come last to first: a loop would count them before, and be no plainer.
fn put_digits(out: &mut [u8], at: usize, n: u64, k: usize) -> usize
    requires { at + k ≤ length out.old }
    ensures { Puts out.old at (last_digits k n) out.new result }
{
    if k == 0 {
        return at;
    }
    if n < 10 {
        return put_byte(out, at, b'0' + n as u8);
    }
    let next = put_digits(out, at, n / 10, k - 1);
    put_byte(out, next, b'0' + (n % 10) as u8)
}

// A number in decimal.
#[tactic(auto, unfolding(crate::specs::Numbers::decimal))]
pub fn put_decimal(out: &mut [u8], at: usize, n: u64) -> usize
    requires { at + 20 ≤ length out.old }
    ensures { Puts out.old at (decimal n) out.new result }
{
    put_digits(out, at, n, 20)
}

// Bytes in hex.
pub fn put_hex(out: &mut [u8], at: usize, s: &[u8]) -> usize
    requires { at + 2 * length s.now ≤ length out.old }
    ensures { Puts out.old at (to_hex s.now) out.new result }
{
    for (i, &b) in s.iter().enumerate() {
        out[at + 2 * i] = lists::hex_digit(b / 16);
        out[at + 2 * i + 1] = lists::hex_digit(b % 16);
    }
    at + 2 * s.len()
}

fn is_all_graphic(s: &[u8]) -> bool
    ensures { result ≡ is_all_graphic s.now }
{
    s.iter().all(|b| b.is_ascii_graphic())
}

// A name: as it is where it can be read so, else in hex.
pub fn put_name(out: &mut [u8], at: usize, s: &[u8]) -> usize
    requires { at + (1 + 2 * length s.now) ≤ length out.old }
    ensures { Puts out.old at (name_text s.now) out.new result }
{
    if is_all_graphic(s) {
        let next = put_byte(out, at, b'=');
        put(out, next, s)
    } else {
        put_hex(out, at, s)
    }
}
