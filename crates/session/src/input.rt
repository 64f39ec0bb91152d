// A script as it is read: lines gather in a buffer, and each is answered as soon as it has come.
ghost use Rattle.std.specs.Prelude.{◌+◌, ◌*◌, ◌≤◌, length};

use script::cutting;
use std::io::{Read, Write};
use volume::Volume;

// Room for what one read takes.
const CHUNK_ROOM: usize = 65536;

// The volume, and the bytes so far of the line that has begun, the first `used` of a buffer. The other buffers are lent to each line: one for the bytes that it spells, and one for
// its answer. The line's has room for a line, or for enough of a longer one to tell that it is too long.
// They are lent buffers of fixed size, and `used` a position in one: nothing here has a heap, so there is no Vec or String.
#[derive(Drop)]
pub struct Reader<'a> {
    pub volume: Volume,
    pub line: &'a mut [u8],
    pub used: usize,
    pub payload: &'a mut [u8],
    pub out: &'a mut [u8],
    ghost room: { (used ≤ length line.now) × (131074 ≤ length line.now) × (length line.now ≤ length payload.now) × (1000 + 2 * length payload.now ≤ length out.now) },
}

// What a part of a chunk comes to: how many of its bytes are taken, and how many bytes of the output buffer are said.
#[derive(Clone, Copy)]
struct Turn {
    taken: usize,
    len: usize,
}

impl Reader<'_> {
    ghost use Rattle.std.specs.Prelude.{◌≡◌, ◌≤◌, length, take};
    ghost use Rattle.script.specs.Cutting.{up_to_newline};
    ghost use Rattle.session.specs.Input.{Begun, Feeds, Says, Ends};

    // Answers the line that has begun, and returns how many bytes of the output buffer it says. The buffers always have room for it.
    pub fn answer_kept(&mut self) -> usize
        ensures len_in_bounds { result ≤ length self.new.out.now }
        ensures ends { Ends self.old self.new (take result self.new.out.now) }
    {
        let line = &self.line[..self.used];
        let said = lines::answer_line(self.volume, line, self.payload, self.out);
        self.volume = said.volume;
        self.used = 0;
        said.len.unwrap_or(0)
    }

    // Writes what is said. A write that fails is not noticed.
    pub fn say<W: Write>(&self, len: usize, output: &mut W)
        requires { len ≤ length self.now.out.now }
    {
        let _ = output.write_all(&self.out[..len]);
    }

    // Takes bytes up to the end of a line, and answers the line where it has come.
    fn next_answer(&mut self, bytes: &[u8]) -> Turn
        ensures taken_value { result.taken ≡ up_to_newline bytes.now }
        ensures len_in_bounds { result.len ≤ length self.new.out.now }
        ensures feeds { Feeds self.old (take result.taken bytes.now) self.new }
        ensures says { Says self.old (take result.taken bytes.now) (take result.len self.new.out.now) }
    {
        let cut = cutting::take_line(self.line, self.used, bytes);
        self.used = cut.used;
        let len = if cut.ended { self.answer_kept() } else { 0 };
        Turn {
            taken: cut.taken,
            len,
        }
    }

    // Answers each line that ends in a chunk of the input.
    fn take_chunk<W: Write>(&mut self, chunk: &[u8], output: &mut W)
        ensures { Feeds self.old chunk.now self.new }
    {
        let mut rest = chunk;
        // `take_line` finds where each line ends; an iterator over them, such as `split_inclusive`, would look for it a second time.
        while !rest.is_empty() {
            let turn = self.next_answer(rest);
            self.say(turn.len, output);
            rest = &rest[turn.taken..];
        }
    }

    // Answers the lines that newlines end, until no byte comes. A read that fails counts as the end of the input. A proved loop has to end, and nothing says that the input does: so the
    // loop has as many turns as a number that no run uses up. The session is one of some bytes, on a fresh volume; that they are those that came is to be read here.
    pub fn take_all<R: Read, W: Write>(&mut self, input: &mut R, output: &mut W)
        requires { Begun self.old }
        ensures { Begun self.new }
    {
        let mut chunk = lists::zeros::<CHUNK_ROOM>();
        for _ in 0..u64::MAX {
            let n = input.read(&mut chunk).unwrap_or(0);
            if n == 0 {
                return;
            }
            self.take_chunk(&chunk[..n], output);
        }
    }
}
