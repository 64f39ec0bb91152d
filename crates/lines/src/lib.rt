// A line of a request script, and its answer: its text and the volume after it are what specs/Lines.antt says. `answer_line` takes any line and any buffers:
// it asks nothing of its caller. The texts of answers are in answers.rt, and the requests in calls.rt.
#![tactic(auto)]

mod answers;
mod calls;
mod text;

ghost use Rattle.std.specs.Prelude.{◌≡◌, ◌+◌, ◌*◌, ◌≤◌, length, take, option_map, IfSome};
ghost use Rattle.lines.specs.Evidence.{Evidence};
ghost use Rattle.lines.specs.Answers.{HasRoomFor};
ghost use Rattle.lines.specs.Lines.{without_return, is_skipped, words_in, words_beside, commanded, answered, Responds, Replies, has_room, line_outcome, answered_in};

use script::{Args, Verb, arguments, verbs, words};
use text::Text;
use volume::Volume;

// How many bytes a line has at most, its newline and carriage return not counted.
const LINE_LIMIT: usize = 131072;

// How many bytes are said to a line, at the start of the output buffer, and the volume then. Where the buffers had no room for the line, `len` is None:
// nothing is said, and the volume and the buffers are as they were.
#[derive(Clone, Copy)]
pub struct LineAnswer {
    pub len: Option<usize>,
    pub volume: Volume,
}

// One carriage return at the end is dropped.
fn without_return(line: &[u8]) -> &[u8]
    ensures { result.now ≡ without_return line.now }
{
    line.strip_suffix(b"\r").unwrap_or(line)
}

// A line with no word, or a comment.
#[tactic(auto, unfolding(crate::specs::Lines::is_skipped))]
fn is_skipped(line: &[u8]) -> bool
    ensures { result ≡ is_skipped line.now }
{
    let w = words::first_word(line);
    w.is_empty() || w[0] == b'#'
}

// The words of a line, each what it should be; the bytes of KEY, POLICY, NAME or BLOCK come to stand at the start of the payload.
fn words_of(line: &[u8], payload: &mut [u8]) -> Option<(Verb, Args)>
    requires { length line.now ≤ length payload.old }
    ensures { option_map (words_beside payload.new) result ≡ words_in line.now }
{
    if LINE_LIMIT < line.len() {
        return None;
    }
    let (word, rest) = words::split(line);
    let verb = verbs::verb(word)?;
    let a = arguments::read_words(verbs::shape_of(verb), rest, payload)?;
    Some((verb, a))
}

// A line that is not skipped.
fn command(v: Volume, line: &[u8], payload: &mut [u8], text: &mut Text) -> Volume
    requires { (length line.now ≤ length payload.old) × HasRoomFor payload.old text.old }
    ensures { Responds text.old text.new result (commanded v line.now) }
{
    match words_of(line, payload) {
        Some((verb, a)) => calls::perform(v, verb, a, &mut payload[..a.len], text),
        None => calls::malformed(v, text),
    }
}

// The answer to a line, and the volume after it. `payload` is room for the bytes of a KEY, POLICY, NAME or BLOCK.
fn reply(v: Volume, line: &[u8], payload: &mut [u8], text: &mut Text) -> Volume
    requires { (text.old.len ≡ 0) × (length line.now ≤ length payload.old) × HasRoomFor payload.old text.old }
    ensures { Replies text.old text.new result (answered v line.now) }
{
    let line = without_return(line);
    if is_skipped(line) {
        return v;
    }
    let after = command(v, line, payload, text);
    text.put(b"\n");
    after
}

// Whether the buffers have room for a line. The test is in a form that cannot overflow.
fn has_room(line: &[u8], payload: &[u8], out: &[u8]) -> bool
    ensures { result ≡ has_room (length line.now) (length payload.now) (length out.now) }
{
    line.len() <= payload.len() && 1000 <= out.len() && line.len() <= (out.len() - 1000) / 2
}

// A line, and any buffers. `payload` is room for the bytes of a KEY, POLICY, NAME or BLOCK: as many as the line has, and they are zeros afterwards. `out` is
// room for the answer: 1,000 bytes, and two for each byte of the line; the answer stands at its start. Where either buffer is too small, nothing is done.
pub fn answer_line(v: Volume, line: &[u8], payload: &mut [u8], out: &mut [u8]) -> LineAnswer
    ensures outcome { line_outcome result payload.new out.new ≡ answered_in v line.now payload.old out.old }
    ensures within { IfSome result.len (λ n. (n ≤ length out.new) × (n ≡ length (take n out.new))) }
{
    if !has_room(line, payload, out) {
        return LineAnswer {
            len: None,
            volume: v,
        };
    }
    let payload = &mut payload[..line.len()];
    let mut text = Text { out, len: 0 };
    let volume = reply(v, line, payload, &mut text);
    payload.fill(0);
    LineAnswer {
        len: Some(text.len),
        volume,
    }
}

// A line is answered `error 18 EXDEV` exactly where it makes a request that is refused with 18, and this proves that an encrypted directory would have gained what lacks its
// policy. The function does nothing: its `ensures` is the theorem.
pub fn error_18_is_evidence()
    ensures { Evidence }
{}
