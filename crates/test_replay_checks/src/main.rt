// Checks and runs the scripts of a reference and prints the listing of each: scripts with every fault of a record, on both
// sides of each bound, and legal ones that never address the clock.
// The files `stdin` and `stdout` are those of tools/reference/checks, which is written from documents 01 and 02.
// A crate for each input: the gate gives a program one.
#![tactic(auto)]

use streams::read_full;

fn main(rt: HostRuntime) {
    let mut input = [0u8; 335_872];
    let n = read_full(&mut rt.stdin(), &mut input);
    test_replaying_scripts::replay(&rt, &input[..n]);
}
