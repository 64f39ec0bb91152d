// A request script as an input: what is said to it is what specs/Input.antt says, line by line. What is said to a line is the crate lines' matter.
// `run` takes any reader and any writer: it asks nothing of its caller.
#![tactic(auto)]

mod input;

ghost use Rattle.session.specs.Input.{Ran};
ghost use Rattle.session.specs.Logged.{Logged};

use input::Reader;
use std::io::{Read, Write};
use volume::Volume;

// A line of 131,072 bytes, its carriage return, and one byte more, so that a line that was cut is over the limit.
const LINE_ROOM: usize = 131074;

// Room for an answer: 1,000 bytes, and two hex digits for each byte of a line.
const OUT_ROOM: usize = 263200;

// Runs a whole script on a fresh volume, and returns the volume at its end; the last line may lack its newline.
//
// Proved: the volume is the one that specs/Input.antt has at the end of some input; and each text that `say` is given is what that file says to the bytes
// taken, in their order and however they come in chunks (`next_answer`: Says, Feeds; `answer_kept`: Ends; `take_all`: Begun).
// Not proved, but to be read in `take_all`, `take_chunk` and here: that these bytes are those that `read` delivered, all of them, and that each text is
// written, once and in order. What the contracts of `Read::read` and `Write::write_all` say of a file or a standard stream is assumed of the system, and is how
// many bytes were moved at most, not which.
// A read that fails, also by a signal, counts as the end of the input. A write that fails is not noticed: `write_all` stops there and answers an error,
// which `say` drops, and the script runs on. After 2^64 - 1 reads no more input is taken. No theorem bounds the stack: the buffers alone are 590,884 bytes.
#[tactic(auto, using(lists::proofs::ByteStrings::length_zeros))]
pub fn run<R: Read, W: Write>(input: &mut R, output: &mut W) -> Volume
    ensures { Ran result }
{
    let mut line = lists::zeros::<LINE_ROOM>();
    let mut payload = lists::zeros::<LINE_ROOM>();
    let mut out = lists::zeros::<OUT_ROOM>();
    let mut reader = Reader {
        volume: requests::fresh(),
        line: &mut line,
        used: 0,
        payload: &mut payload,
        out: &mut out,
    };
    reader.take_all(input, output);
    let len = reader.answer_kept();
    reader.say(len, output);
    reader.volume
}

// Whatever bytes have come, the volume is sound; and where `error 18 EXDEV` is then said, the line that ends makes a request that is refused with 18, by which, its later checks
// aside, an encrypted directory would have gained what lacks its policy. The function does nothing: its `ensures` is the theorem.
pub fn each_error_18_is_evidence()
    ensures { Logged }
{}
