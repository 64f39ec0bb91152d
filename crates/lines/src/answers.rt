// Answers as text.
ghost use Rattle.std.specs.Prelude.{◌≡◌, true, false, [], ◌++◌, ◌+◌, ◌*◌, ◌≤◌, length};
ghost use Rattle.errno.specs.Refusals.{number};
ghost use Rattle.volume.specs.Request.{Answer, refused, done, created, at, replied, policy_answered, show_answered, form_answered, entry_shown};
ghost use Rattle.script.specs.Text.{text as bytes};
ghost use Rattle.script.specs.Strings.{to_hex};
ghost use Rattle.lines.specs.Answers.{errno_name, form_name, shown_text, answer_text, result_answer, Written, HasRoomFor};

use crate::text::Text;
use errno::Errno;
use ids::EntryNumber;
use volume::{Created, Form, PolicyOutcome, ShownEntry};

// What a request answers, as text.
// It is no `Display`: `write!` promises its text only where it answers Ok, and room is no promise of that; the clause `outcome` of `answer_line` has no such case.
pub trait Say {
    ghost answer: { Self → Answer };

    fn say(&self, text: &mut Text)
        ensures { Written text.old text.new (answer_text false (answer self.now) []) };
}

impl Say for () {
    ghost answer = { λ _. done };

    #[tactic(auto, unfolding(crate::specs::Answers::answer_text))]
    fn say(&self, text: &mut Text) {
        text.start(b"ok");
    }
}

impl Say for Created {
    ghost answer = { λ c. created c.inode c.entry };

    #[tactic(auto, using(script::proofs::Digits::decimal_length))]
    fn say(&self, text: &mut Text) {
        text.start(b"ok ");
        text.put_decimal(self.inode.0);
        text.put(b" ");
        text.put_decimal(self.entry.0);
    }
}

impl Say for EntryNumber {
    ghost answer = { λ e. at e };

    fn say(&self, text: &mut Text) {
        text.start(b"ok ");
        text.put_decimal(self.0);
    }
}

impl Say for PolicyOutcome {
    ghost answer = { λ o. policy_answered o.answer o.policy };

    #[tactic(auto, unfolding(crate::specs::Answers::answer_text))]
    fn say(&self, text: &mut Text) {
        match self.answer {
            Ok(()) => say_bytes(text, &self.policy),
            Err(e) => e.say(text),
        }
    }
}

impl Say for Errno {
    ghost answer = { λ e. refused (number e) };

    #[tactic(auto, using(script::proofs::Digits::decimal_length))]
    fn say(&self, text: &mut Text) {
        text.start(b"error ");
        text.put_decimal(u64::from(u8::from(*self)));
        text.put(b" ");
        text.put(name(*self));
    }
}

impl<T: Say> Say for Result<T, Errno> {
    ghost answer = { result_answer T.answer };

    fn say(&self, text: &mut Text) {
        match self {
            Ok(answer) => answer.say(text),
            Err(e) => e.say(text),
        }
    }
}

// Linux's name of a refusal.
fn name(e: Errno) -> &'static [u8]
    ensures name { result.now ≡ bytes (errno_name (number e)) }
    ensures short { length result.now ≤ 12 }
{
    match e {
        Errno::EPERM => b"EPERM",
        Errno::ENOENT => b"ENOENT",
        Errno::EEXIST => b"EEXIST",
        Errno::EXDEV => b"EXDEV",
        Errno::ENOTDIR => b"ENOTDIR",
        Errno::EINVAL => b"EINVAL",
        Errno::ENOSPC => b"ENOSPC",
        Errno::ERANGE => b"ERANGE",
        Errno::ENAMETOOLONG => b"ENAMETOOLONG",
        Errno::ENOTEMPTY => b"ENOTEMPTY",
        Errno::ENODATA => b"ENODATA",
        Errno::ENOTUNIQ => b"ENOTUNIQ",
        Errno::EUCLEAN => b"EUCLEAN",
        Errno::ENOKEY => b"ENOKEY",
    }
}

fn say_bytes(text: &mut Text, s: &[u8])
    requires { 4 + 2 * length s.now ≤ length text.old.out.now }
    ensures { Written text.old text.new (bytes "ok " ++ to_hex s.now) }
{
    text.start(b"ok ");
    text.put_hex(s);
}

// Here and below no impl of `Say`: the clause takes the block or the buffer too.
// The answer of seal and open, with the block where it was done.
#[tactic(auto, unfolding(crate::specs::Answers::answer_text))]
pub fn say_block(text: &mut Text, answer: Result<(), Errno>, block: &[u8])
    requires { HasRoomFor block.now text.old }
    ensures { Written text.old text.new (answer_text true (replied answer) block.now) }
{
    match answer {
        Ok(()) => say_bytes(text, block),
        Err(e) => e.say(text),
    }
}

fn form_name(f: Form) -> &'static [u8]
    ensures name { result.now ≡ bytes (form_name (form_answered f)) }
    ensures short { length result.now ≤ 9 }
{
    match f {
        Form::Plain => b"plain",
        Form::Decrypted => b"decrypted",
        Form::Encoded => b"encoded",
    }
}

// The name is at the buffer's start.
#[tactic(auto, using(crate::proofs::Texts::field_length))]
fn say_entry(text: &mut Text, s: ShownEntry, buffer: &[u8])
    ensures { Written text.old text.new (shown_text (entry_shown s) buffer.now) }
{
    text.start(b"ok ");
    text.put_field(s.parent.0);
    text.put_field(s.inode.0);
    text.put_field(u64::from(s.kind));
    text.put(form_name(s.form));
    text.put(b" ");
    text.put_field(u64::from(s.len));
    text.put_name(&buffer[..usize::from(s.len).min(buffer.len())]);
}

#[tactic(auto, unfolding(crate::specs::Answers::answer_text))]
pub fn say_shown(text: &mut Text, answer: Result<ShownEntry, Errno>, buffer: &[u8])
    ensures { Written text.old text.new (answer_text false (show_answered answer) buffer.now) }
{
    match answer {
        Ok(s) => say_entry(text, s, buffer),
        Err(e) => e.say(text),
    }
}
