// Re-runs the recorded lists of calls that take diagnostics and prints the answers.
// The file `stdin` is vectors/taking.in, and `stdout` has the answers of the Rust, vectors/taking.out.
// A crate for each input: the gate gives a program one.
#![tactic(auto)]

use streams::read_full;

fn main(rt: HostRuntime) {
    let mut input = [0u8; 65_536];
    let n = read_full(&mut rt.stdin(), &mut input);
    test_replaying::replay(&rt, &input[..n]);
}
