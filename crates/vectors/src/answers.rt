// What is written, to standard output. A write that fails is not noticed.
ghost use Rattle.std.specs.Prelude.{◌≤◌, length};

use errno::Errno;
use script::output;
use std::io::Write;

// Why a line is answered otherwise than with what it asks for.
#[derive(Clone, Copy, Debug, PartialEq, Eq)]
pub enum Failure {
    // It is no request.
    Malformed,
    Refused(Errno),
}

impl From<Errno> for Failure {
    fn from(e: Errno) -> Failure {
        Failure::Refused(e)
    }
}

// How many bytes are written at a time.
const PART: usize = 4200;

// A byte string in hex, `-` for none.
fn write_bytes(to: &mut impl Write, bytes: &[u8]) {
    if bytes.is_empty() {
        let _ = to.write_all(b"-");
    }
    // A loop over `bytes.chunks(PART)` was tried, and the bound of a part's length did not close.
    let mut rest = bytes;
    while !rest.is_empty() {
        let (part, more) = rest.split_at(rest.len().min(PART));
        let mut text = [0; 2 * PART];
        let n = output::put_hex(&mut text, 0, part);
        let _ = to.write_all(&text[..n]);
        rest = more;
    }
}

// The errno, a number as `ciphers::Status` has it, and the buffer after the call.
pub fn after_call(to: &mut impl Write, errno: u8, buffer: &[u8]) {
    let _ = write!(to, "{errno} ");
    write_bytes(to, buffer);
    let _ = to.write_all(b"\n");
}

// What a function of no refusal gave.
pub fn given(to: &mut impl Write, bytes: &[u8]) {
    after_call(to, 0, bytes);
}

// What a check came to, with nothing more to say.
pub fn passed(to: &mut impl Write) {
    let _ = to.write_all(b"0\n");
}

pub fn yes_or_no(to: &mut impl Write, yes: bool) {
    let _ = to.write_all(if yes { b"0 yes\n" } else { b"0 no\n" });
}

pub fn echo(to: &mut impl Write, line: &[u8]) {
    let _ = to.write_all(line);
    let _ = to.write_all(b"\n");
}

// Of a line that is answered otherwise: that it is no request, or the refusal's number alone.
pub fn failed(to: &mut impl Write, why: Failure) {
    let _ = match why {
        Failure::Malformed => to.write_all(b"malformed\n"),
        Failure::Refused(e) => writeln!(to, "{}", u8::from(e)),
    };
}
