// Byte strings and tables: definitions and laws; a copy, zeros, a hex digit.
#![tactic(auto)]

ghost use Rattle.std.specs.Prelude.{◌≡◌, ◌+◌, ◌≤◌, length};
ghost use Rattle.std.proofs.lemmas.List.Edits.{sets};
ghost use Rattle.lists.specs.Bytes.{hex_digit, zeros};
ghost use Rattle.lists.specs.Meanings.{ByteMeanings};

// Copies bytes into a buffer, from a position on: `copy_from_slice` by the name that docs/CLAIMS.md gives it, with its clause in one definition.
pub fn copy_to(out: &mut [u8], at: usize, s: &[u8])
    requires { at + length s.now ≤ length out.old }
    ensures { out.new ≡ sets out.old at s.now }
{
    out[at..at + s.len()].copy_from_slice(s);
}

// Zeros: a descriptor's, a nonce's, a key's, a name's. A caller that takes them from a call never meets them written out.
pub fn zeros<const N: usize>() -> [u8; N]
    ensures { result ≡ zeros N }
{
    [0; N]
}

// A lower case hex digit.
pub fn hex_digit(n: u8) -> u8
    requires { n ≤ 15 }
    ensures { result ≡ hex_digit n }
{
    if n < 10 { b'0' + n } else { b'a' + (n - 10) }
}

// What the comparison, the search, the hex digits and what is laid over mean. The function does nothing: its `ensures` is the theorem.
pub fn bytes_mean()
    ensures { ByteMeanings }
{}
