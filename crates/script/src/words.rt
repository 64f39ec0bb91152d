// The words of a line, one after the other.
ghost use Rattle.std.specs.Prelude.{◌≡◌};
ghost use Rattle.script.specs.Words.{is_blank, trimmed, first_word, after_word};

pub fn is_blank(b: u8) -> bool
    ensures { result ≡ is_blank b }
{
    b == b' ' || b == b'\t'
}

// Without the blanks at the start.
fn trim(s: &[u8]) -> &[u8]
    ensures { result.now ≡ trimmed s.now }
{
    let start = s.iter().position(|b| !is_blank(*b)).unwrap_or(s.len());
    &s[start..]
}

// The first word of a line, empty where there is none, and what follows it.
pub fn split(line: &[u8]) -> (&[u8], &[u8])
    ensures word { result.0.now ≡ first_word line.now }
    ensures rest { result.1.now ≡ after_word line.now }
{
    let t = trim(line);
    let end = t.iter().position(|b| is_blank(*b)).unwrap_or(t.len());
    t.split_at(end)
}

pub fn first_word(line: &[u8]) -> &[u8]
    ensures { result.now ≡ first_word line.now }
{
    split(line).0
}
