// The words of a request line after the first, read one after the other.
ghost use Rattle.std.specs.Prelude.{◌≡◌, ◌≤◌, cond, length, option_map};
ghost use Rattle.script.specs.Commands.{bytes_in, read_in, next, read_words, laid_text, is_taken, left_in};

use crate::{Args, Sort, numbers, strings, words};

const NO_ARGS: Args = Args {
    first: 0,
    second: 0,
    descriptor: [0; 8],
    nonce: [0; 16],
    len: 0,
};

// The bytes that a byte string of exactly N stands for.
fn bytes_in<const N: usize>(w: &[u8]) -> Option<[u8; N]>
    ensures { result ≡ bytes_in N w.now }
{
    if !strings::is_byte_string(w) || strings::byte_count(w) != N {
        return None;
    }
    let mut bytes = [0; N];
    strings::lay(w, &mut bytes);
    Some(bytes)
}

// One word more. KEY, POLICY, NAME or BLOCK: its bytes go to the start of the payload, a buffer of their own.
#[tactic(auto, unfolding(crate::specs::Commands::taken, crate::specs::Commands::taken_text, crate::specs::Commands::laid_text, lists::specs::Bytes::zeros), using(crate::proofs::Hex::bytes_of_length, lists::proofs::SameBytes::same_pointwise))]
fn take_word(a: Args, sort: Sort, w: &[u8], payload: &mut [u8]) -> Option<Args>
    requires { length w.now ≤ length payload.old }
    ensures read { option_map (read_in payload.new) result ≡ next (read_in payload.old a) sort w.now }
    ensures left { payload.new ≡ cond (is_taken sort w.now) (laid_text payload.old sort w.now) payload.old }
{
    match sort {
        Sort::First => Some(Args {
            first: numbers::number(w)?,
            ..a
        }),
        Sort::Size if w.is_empty() => Some(Args { second: 255, ..a }),
        Sort::Second | Sort::Size => Some(Args {
            second: numbers::number(w)?,
            ..a
        }),
        Sort::Text => {
            if !strings::is_byte_string(w) {
                return None;
            }
            strings::lay(w, payload);
            Some(Args {
                len: strings::byte_count(w),
                ..a
            })
        }
        Sort::Descriptor => Some(Args {
            descriptor: bytes_in(w)?,
            ..a
        }),
        Sort::Nonce if w == b"-".as_slice() => Some(Args {
            nonce: [0; 16],
            ..a
        }),
        Sort::Nonce => Some(Args {
            nonce: bytes_in(w)?,
            ..a
        }),
    }
}

// All words after the request's, each of its sort, and none more. The bytes of KEY, POLICY, NAME or BLOCK come to stand at the start of the payload,
// also where another word is wrong: every word is read.
#[tactic(auto, unfolding(crate::specs::Commands::read_words, lists::specs::Bytes::zeros), using(crate::proofs::Lines::lengths))]
pub fn read_words(shape: &[Sort], line: &[u8], payload: &mut [u8]) -> Option<Args>
    requires { length line.now ≤ length payload.old }
    ensures read { option_map (read_in payload.new) result ≡ read_words shape.now line.now }
    ensures left { payload.new ≡ left_in payload.old shape.now line.now }
{
    let mut args = Some(NO_ARGS);
    let mut left = line;
    for &sort in shape {
        let (word, rest) = words::split(left);
        let more = take_word(args.unwrap_or(NO_ARGS), sort, word, payload);
        args = args.and(more);
        left = rest;
    }
    if words::first_word(left).is_empty() {
        args
    } else {
        None
    }
}
