// Re-runs the recorded calls of `DateTime` and prints the answers.
// The file `stdin` is vectors/dates.in, and `stdout` has the answers of the Rust, vectors/dates.out.
// A crate for each input: the gate gives a program one.
#![tactic(auto)]

use streams::read_full;

fn main(rt: HostRuntime) {
    let mut input = [0u8; 65_536];
    let n = read_full(&mut rt.stdin(), &mut input);
    test_replaying::replay(&rt, &input[..n]);
}
