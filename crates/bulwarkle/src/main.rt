// Reads a request script from standard input, runs it on a fresh volume, and writes an answer for each request to standard output, at once.
#![tactic(auto)]

fn main(rt: HostRuntime) {
    session::run(&mut rt.stdin(), &mut rt.stdout());
}
