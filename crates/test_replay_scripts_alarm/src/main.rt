// Re-runs the recorded scripts that read status after an alarm byte was written and prints the listing of each.
// The file `stdin` is vectors/scripts_alarm.in, and `stdout` has the answers of the Rust, vectors/scripts_alarm.out.
// A crate for each input: the gate gives a program one.
#![tactic(auto)]

use streams::read_full;

fn main(rt: HostRuntime) {
    let mut input = [0u8; 147_456];
    let n = read_full(&mut rt.stdin(), &mut input);
    test_replaying_scripts::replay(&rt, &input[..n]);
}
