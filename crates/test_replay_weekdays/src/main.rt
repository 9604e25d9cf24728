// Re-runs recorded calls of chips whose clocks pass midnights and the end of 2199, and prints the answers.
// The files `stdin` and `stdout` are what tools/reference/weekdays writes, by documents 01 and 02.
// A crate for each input: the gate gives a program one.
#![tactic(auto)]

use streams::read_full;

fn main(rt: HostRuntime) {
    let mut input = [0u8; 65_536];
    let n = read_full(&mut rt.stdin(), &mut input);
    test_replaying::replay(&rt, &input[..n]);
}
