// Each request, made of a line's words, and its answer as text. Volume and text go apart: the volume is a value that is handed back, the text is lent.
ghost use Rattle.std.specs.Prelude.{◌≡◌, true, false, [], ◌+◌, ◌*◌, ◌≤◌, length};
ghost use Rattle.volume.specs.Request.{replied};
ghost use Rattle.script.specs.declared.Verb.TheVariants.{Show};
ghost use Rattle.lines.specs.Answers.{answer_text, result_answer, saying, malformed, HasRoomFor};
ghost use Rattle.lines.specs.Lines.{respond, Responds};

use crate::answers::{self, Say};
use crate::text::Text;
use errno::Errno;
use ids::{EntryNumber, InodeNumber};
use script::{Args, Verb};
use volume::{Changed, Volume};

pub fn malformed(v: Volume, text: &mut Text) -> Volume
    ensures { Responds text.old text.new result (malformed v) }
{
    text.start(b"malformed");
    v
}

// A request that changes the volume, answered.
fn changed<T: Say + Drop>(c: Changed<T>, text: &mut Text) -> Volume
    ensures { Responds text.old text.new result (saying (answer_text false (result_answer T.answer c.answer) []) c.volume) }
{
    c.answer.say(text);
    c.volume
}

// A request on a block, answered with the block as it is then.
fn block(v: Volume, answer: Result<(), Errno>, payload: &[u8], text: &mut Text) -> Volume
    requires { HasRoomFor payload.now text.old }
    ensures { Responds text.old text.new result (saying (answer_text true (replied answer) payload.now) v) }
{
    answers::say_block(text, answer, payload);
    v
}

// SIZE is at most 4,096.
fn show(v: Volume, a: Args, text: &mut Text) -> Volume
    ensures { Responds text.old text.new result (respond v Show a []) }
{
    if 4096 < a.second {
        return malformed(v, text);
    }
    let mut room = lists::zeros::<4096>();
    let buffer = &mut room[..a.second as usize];
    let answer = requests::show(v, EntryNumber(a.first), buffer);
    answers::say_shown(text, answer, buffer);
    v
}

pub fn perform(v: Volume, verb: Verb, a: Args, payload: &mut [u8], text: &mut Text) -> Volume
    requires { HasRoomFor payload.old text.old }
    ensures { Responds text.old text.new result (respond v verb a payload.old) }
{
    let inode = InodeNumber(a.first);
    let entry = EntryNumber(a.first);
    let parent = InodeNumber(a.second);
    match verb {
        Verb::AddKey => changed(requests::add_key(v, a.descriptor, payload), text),
        Verb::RemoveKey => changed(requests::remove_key(v, a.descriptor), text),
        Verb::SetPolicy => changed(requests::set_policy(v, inode, payload, a.nonce), text),
        Verb::GetPolicy => {
            requests::get_policy(v, inode).say(text);
            v
        }
        Verb::Create => changed(requests::create(v, inode, a.second, payload, a.nonce), text),
        Verb::Link => changed(requests::link(v, inode, parent, payload), text),
        Verb::Rename => changed(requests::rename(v, entry, parent, payload), text),
        Verb::Exchange => changed(requests::exchange(v, entry, EntryNumber(a.second)), text),
        Verb::Remove => changed(requests::remove(v, entry), text),
        Verb::Find => {
            requests::find(v, inode, payload).say(text);
            v
        }
        Verb::Show => show(v, a, text),
        Verb::Seal => {
            let answer = requests::seal(v, inode, a.second, payload);
            block(v, answer, payload, text)
        }
        Verb::Open => {
            let answer = requests::open(v, inode, a.second, payload);
            block(v, answer, payload, text)
        }
    }
}
