// An input, cut into lines.
ghost use Rattle.std.specs.Prelude.{◌≤◌, length};

use crate::{answers, requests};
use script::cutting;
use std::io::{Read, Write};

// A line of 65,536 bytes or more fills it.
const LINE_ROOM: usize = 65536;

const CHUNK_ROOM: usize = 4096;

// The bytes of a line that have come: the first `used`. No heap: so the length stands beside an array of fixed size.
#[derive(Drop)]
struct Line {
    bytes: [u8; LINE_ROOM],
    used: usize,
    ghost fits: { used ≤ 65536 },
}

impl Line {
    fn new() -> Self {
        Line {
            bytes: [0; LINE_ROOM],
            used: 0,
        }
    }

    // Answers the line, and begins the next. One that fills all its room is too long: it may have been cut.
    fn finish(&mut self, to: &mut impl Write) {
        if self.used == LINE_ROOM {
            answers::failed(to, answers::Failure::Malformed);
        } else {
            requests::answer(to, &self.bytes[..self.used]);
        }
        self.used = 0;
    }

    // Answers each line that ends in a chunk of the input.
    fn take_chunk(&mut self, to: &mut impl Write, chunk: &[u8]) {
        // `take_line` finds the end of each line, which an iterator over the chunk would find again.
        let mut rest = chunk;
        while !rest.is_empty() {
            let cut = cutting::take_line(&mut self.bytes, self.used, rest);
            self.used = cut.used;
            if cut.ended {
                self.finish(to);
            }
            rest = &rest[cut.taken..];
        }
    }
}

// Answers every line, until no byte comes; the last may lack its newline. A read that fails counts as the end of the input. A proved loop has to end, and nothing
// says that the input does: so the loop has as many turns as a number that no run uses up.
pub fn answer_all(from: &mut impl Read, to: &mut impl Write) {
    let mut line = Line::new();
    let mut chunk = [0; CHUNK_ROOM];
    for _ in 0..u64::MAX {
        let n = from.read(&mut chunk).unwrap_or(0);
        if n == 0 {
            break;
        }
        line.take_chunk(to, &chunk[..n]);
    }
    if 0 < line.used {
        line.finish(to);
    }
}
