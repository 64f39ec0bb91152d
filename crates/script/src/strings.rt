// Byte strings: hex, quoted bytes, or none.
ghost use Rattle.std.specs.Prelude.{◌≡◌, ◌+◌, ◌*◌, ◌≤◌, length};
ghost use Rattle.lists.specs.Bytes.{laid_over};
ghost use Rattle.script.specs.Strings.{hex_value, is_hex, is_quoted, is_byte_string, from_hex, bytes_of};

// What a hex digit stands for: b'a' and b'A' are 10. 0 of any other byte, as the definition has it, so no Option.
#[tactic(auto, unfolding(crate::specs::Strings::hex_value))]
fn hex_value(b: u8) -> u8
    ensures { (result ≡ hex_value b) × (result ≤ 15) }
{
    match b {
        b'0'..=b'9' => b - b'0',
        b'a'..=b'f' => b - b'a' + 10,
        b'A'..=b'F' => b - b'A' + 10,
        _ => 0,
    }
}

fn is_hex(s: &[u8]) -> bool
    ensures { result ≡ is_hex s.now }
{
    s.iter().all(|b| b.is_ascii_hexdigit())
}

fn is_quoted(s: &[u8]) -> bool
    ensures { result ≡ is_quoted s.now }
{
    matches!(s, [b'=', ..])
}

#[tactic(auto, unfolding(crate::specs::Strings::is_byte_string), using(lists::proofs::SameBytes::same_pointwise))]
pub fn is_byte_string(s: &[u8]) -> bool
    ensures { result ≡ is_byte_string s.now }
{
    is_quoted(s) || s == b"-".as_slice() || (!s.is_empty() && s.len() % 2 == 0 && is_hex(s))
}

// How many bytes a byte string stands for.
#[tactic(auto, using(crate::proofs::Hex::counts))]
pub fn byte_count(s: &[u8]) -> usize
    ensures { result ≡ length (bytes_of s.now) }
{
    if is_quoted(s) {
        s.len() - 1
    } else {
        s.len() / 2
    }
}

// Lays what hex digits stand for over the buffer's start.
fn lay_hex(s: &[u8], out: &mut [u8])
    requires { length (from_hex s.now) ≤ length out.old }
    ensures { out.new ≡ laid_over out.old (from_hex s.now) }
{
    for (i, pair) in s.chunks_exact(2).enumerate() {
        out[i] = hex_value(pair[0]) * 16 + hex_value(pair[1]);
    }
}

// Lays the bytes that a byte string stands for over the buffer's start.
pub fn lay(s: &[u8], out: &mut [u8])
    requires { length (bytes_of s.now) ≤ length out.old }
    ensures { out.new ≡ laid_over out.old (bytes_of s.now) }
{
    if is_quoted(s) {
        lists::copy_to(out, 0, &s[1..]);
    } else {
        lay_hex(s, out);
    }
}
