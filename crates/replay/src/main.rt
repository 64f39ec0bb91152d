// Runs each script that an argument names, on a fresh volume of its own, as the program bulwarkle would; the script's name comes before its answers.
#![tactic(auto)]

use std::env::FillError;
use std::fs::File;
use std::io::ErrorKind;
use std::rt::Env;
use std::{fs, io, str};

// Room for an argument: a path has at most 4,095 bytes. A longer argument names no script, as an empty one.
const PATH_ROOM: usize = 4096;

// Opens a script. std names a file by text, so a path that is no UTF-8 opens none.
fn open(rt: &HostRuntime, path: &[u8]) -> io::Result<File> {
    match str::from_utf8(path) {
        Ok(text) => fs::open(rt, text),
        Err(_) => Err(io::Error::from(ErrorKind::InvalidFilename)),
    }
}

// Writes to standard error which script could not be opened, and why.
fn fail(rt: &HostRuntime, path: &[u8], why: io::Error) {
    let err = rt.stderr();
    let _ = err.write_all(path);
    let _ = println!(err; ": {why}");
}

// Opens a script and runs it.
fn replay(rt: &HostRuntime, path: &[u8]) {
    match open(rt, path) {
        Ok(mut file) => {
            let mut out = rt.stdout();
            let _ = out.write_all(b"# ");
            let _ = out.write_all(path);
            let _ = out.write_all(b"\n");
            session::run(&mut file, &mut out);
        }
        Err(why) => fail(rt, path, why),
    }
}

// Runs the script with this number among the arguments, and says whether there is an argument with this number.
fn replay_argument(rt: &HostRuntime, i: usize) -> bool {
    let mut path = [0u8; PATH_ROOM];
    match rt.arg(i, &mut path) {
        Ok(n) => {
            replay(rt, &path[..n]);
            true
        }
        Err(FillError::TooLong) => {
            replay(rt, b"");
            true
        }
        Err(FillError::NotPresent) => false,
    }
}

fn main(rt: HostRuntime) {
    for i in 1..usize::MAX {
        if !replay_argument(&rt, i) {
            return;
        }
    }
}
