// This library's side of tools/compare: answers the lists of calls and the scripts that it sends, block by block. A block's
// first byte is its kind: 0 lists of calls, 1 scripts.
// The file `stdin` is two blocks of each kind, and `stdout` has the answers of the Rust.
#![tactic(auto)]

mod blocks;

// The kind of a block of scripts. A type of the two kinds would be made and matched in one place.
const SCRIPTS: u8 = 1;

fn main(rt: HostRuntime) {
    let mut stdin = rt.stdin();
    let mut block = [0u8; 65_536];
    // A bound, since a program has to end.
    for _ in 0..u32::MAX {
        match blocks::read(&mut stdin, &mut block) {
            Some([SCRIPTS, scripts @ ..]) => {
                test_replaying_scripts::replay(&rt, scripts);
            }
            Some([_, lists @ ..]) => {
                test_replaying::replay(&rt, lists);
            }
            _ => return,
        }
    }
}
