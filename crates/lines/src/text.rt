// The text of an answer, at the start of a buffer with room for 1,000 bytes.
ghost use Rattle.std.specs.Prelude.{◌≤◌, length};

use script::output;

// `len` is a position in a lent buffer: with no heap there is no Vec or String that grows.
#[derive(Drop)]
pub struct Text<'a> {
    pub out: &'a mut [u8],
    pub len: usize,
    ghost room: { 1000 ≤ length out.now },
}

impl Text<'_> {
    ghost use Rattle.std.specs.Prelude.{◌≤◌, ◌<◌, ◌+◌, ◌*◌, length};
    ghost use Rattle.script.specs.Numbers.{decimal};
    ghost use Rattle.script.specs.Strings.{to_hex, name_text};
    ghost use Rattle.lines.specs.Answers.{field, Written, Adds};

    // Begins the text anew.
    pub fn start(&mut self, s: &[u8])
        requires { length s.now < 1000 }
        ensures { Written self.old self.new s.now }
    {
        self.len = output::put(self.out, 0, s);
    }

    pub fn put(&mut self, s: &[u8])
        requires { self.old.len + length s.now ≤ length self.old.out.now }
        ensures { Adds self.old self.new s.now }
    {
        self.len = output::put(self.out, self.len, s);
    }

    pub fn put_decimal(&mut self, n: u64)
        requires { self.old.len + 20 ≤ length self.old.out.now }
        ensures { Adds self.old self.new (decimal n) }
    {
        self.len = output::put_decimal(self.out, self.len, n);
    }

    // A number, and a blank after it.
    #[tactic(auto, using(script::proofs::Digits::decimal_length))]
    pub fn put_field(&mut self, n: u64)
        requires { self.old.len + 21 ≤ length self.old.out.now }
        ensures { Adds self.old self.new (field n) }
    {
        self.put_decimal(n);
        self.put(b" ");
    }

    pub fn put_hex(&mut self, s: &[u8])
        requires { self.old.len + 2 * length s.now ≤ length self.old.out.now }
        ensures { Adds self.old self.new (to_hex s.now) }
    {
        self.len = output::put_hex(self.out, self.len, s);
    }

    pub fn put_name(&mut self, s: &[u8])
        requires { self.old.len + (1 + 2 * length s.now) ≤ length self.old.out.now }
        ensures { Adds self.old self.new (name_text s.now) }
    {
        self.len = output::put_name(self.out, self.len, s);
    }
}
