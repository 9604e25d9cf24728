// Re-runs the recorded calls of the chip in which the clock passes the end of 2199, and prints the answers.
// The file `stdin` is vectors/calls_2199.in. `stdout` is what tools/reference/weekdays writes: the answers of the Rust, vectors/calls_2199.out,
// apart from weekdays past the end of 2199.
// A crate for each input: the gate gives a program one.
#![tactic(auto)]

use streams::read_full;

fn main(rt: HostRuntime) {
    let mut input = [0u8; 65_536];
    let n = read_full(&mut rt.stdin(), &mut input);
    test_replaying::replay(&rt, &input[..n]);
}
