// Test vectors, run through the public functions of ciphers, policy and fscrypt, and of aes and field for the key schedules. Standard input has one
// request to a line, and standard output gets one line for each.
//
//     key-expansion KEY               the key schedule of a key of 16, 20, 24, 28 or 32 bytes
//     ecb-encrypt KEY TEXT
//     cts-encrypt KEY TEXT            cts-decrypt KEY TEXT
//     xts-encrypt KEY NUMBER BLOCK    xts-decrypt KEY NUMBER BLOCK
//
// The answer is the errno in decimal, and the buffer after the call in hex.
//
//     policy POLICY                   the policy is read, and what was read is written back
//     context CONTEXT                 the same for a context
//     same-policy POLICY POLICY       `yes` or `no`
//     check-name NAME                 whether a name is plain: the answer is the errno alone
//     store-name CONTEXT MASTER NAME  the name as the directory with this context and this master key stores it
//     read-name CONTEXT MASTER STORED the name that such a directory stores so
//     encode-name NUMBER STORED       the stored name of the entry with this number, as it is shown without the key
//
// The answer is 0 and what is asked for, or the errno of the refusal alone; store-name and read-name check the context before the name.
//
// Words, numbers and byte strings are those of the request script, as the library script reads them. Spaces or tabs stand between two words. NUMBER is
// decimal digits. All other words are byte strings of at most 4,200 bytes: hex digits, or `=` and the bytes themselves, or `-` for none; MASTER has 64
// bytes, and STORED 1 to 255. An empty line, and one that begins with `#`, is written as it is. Any other line is answered `malformed`, and so is one
// of 65,536 bytes or more.
//
// The files stdin and stdout beside src/ hold the vectors and what they must give. tools/vectors.py makes both.
#![tactic(auto)]

mod answers;
mod arguments;
mod cipher_calls;
mod input;
mod name_calls;
mod policy_calls;
mod requests;

fn main(rt: HostRuntime) {
    input::answer_all(&mut rt.stdin(), &mut rt.stdout());
}
