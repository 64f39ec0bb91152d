// Runs 100,000 mixed requests on one volume, in an encrypted directory whose key is held, and prints how many were done. bench/requests times it.
#![tactic(auto)]

use ids::{EntryNumber, InodeNumber};
use policy::Policy;
use volume::{Changed, DIRECTORY, REGULAR, Volume};

// The encrypted directory.
const IMAGES: InodeNumber = InodeNumber(1);

// The volume, and whether the request was done. No Result: the volume is there either way.
#[derive(Clone, Copy)]
struct Turn {
    volume: Volume,
    done: bool,
}

impl<T: Drop> From<Changed<T>> for Turn {
    fn from(changed: Changed<T>) -> Turn {
        Turn {
            volume: changed.volume,
            done: changed.answer.is_ok(),
        }
    }
}

fn name_of(i: u64, last: u8) -> [u8; 3] {
    [b'a' + (i / 8 % 20) as u8, b'.', last]
}

fn nonce_of(i: u64) -> [u8; 16] {
    let mut nonce = [0; 16];
    nonce[..3].copy_from_slice(&i.to_le_bytes()[..3]);
    nonce[3] = 1;
    nonce
}

fn find(v: Volume, name: &[u8]) -> bool {
    requests::find(v, IMAGES, name).is_ok()
}

fn show(v: Volume, n: u64) -> bool {
    requests::show(v, EntryNumber(n), &mut [0; 255]).is_ok()
}

// Request i where i is odd: find and show, which leave the volume.
fn look(v: Volume, i: u64) -> bool {
    match i % 8 {
        1 => find(v, &name_of(i, b'b')),
        3 => show(v, 1 + i / 8 % 20),
        5 => find(v, &name_of(i, b'c')),
        _ => show(v, 1 + i / 16 % 20),
    }
}

// Request i where i is even: create, rename, exchange and remove.
fn change(v: Volume, i: u64) -> Turn {
    let one = EntryNumber(1 + i / 8 % 20);
    let two = EntryNumber(1 + i / 16 % 20);
    match i % 8 {
        0 => requests::create(
            v,
            IMAGES,
            u64::from(REGULAR),
            &name_of(i, b'b'),
            nonce_of(i),
        )
        .into(),
        2 => requests::rename(v, one, IMAGES, &name_of(i, b'c')).into(),
        4 => requests::exchange(v, one, two).into(),
        _ => requests::remove(v, two).into(),
    }
}

// The encrypted directory and nothing else, with its key held.
fn begin() -> Volume {
    let descriptor = [1; 8];
    let policy: [u8; 12] = Policy {
        version: 0,
        contents: 1,
        names: 4,
        flags: 3,
        descriptor,
    }
    .into();
    let v = requests::add_key(requests::fresh(), descriptor, &[7; 64]).volume;
    let v = requests::create(v, InodeNumber(0), u64::from(DIRECTORY), b"images", [0; 16]).volume;
    requests::set_policy(v, IMAGES, &policy, [9; 16]).volume
}

fn main(rt: HostRuntime) {
    let mut v = begin();
    let mut done: u64 = 0;
    for i in 0..50000 {
        let turn = change(v, 2 * i);
        v = turn.volume;
        done += u64::from(turn.done) + u64::from(look(v, 2 * i + 1));
    }
    let _ = println!(rt; "{done} done of 100000");
}
