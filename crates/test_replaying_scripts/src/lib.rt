// Re-runs recorded scripts (vectors/README.md has their form) and prints the listing of each.
// To read it: `replay` is the loop, `turn` one script.
#![tactic(auto)]

ghost use Rattle.std.specs.Prelude.{◌≡◌, ◌<◌, length};

use script_listing::{LISTING, front, listing};

// Runs the scripts of `input` to its end, and answers where that is.
// The loop counts them, since a `for` over numbers has no end at the input's. That of lists of calls is alike: one for both would take
// as parameters the unit of a length, the line before and what is done with a piece that is cut.
pub fn replay(rt: &impl Print, input: &[u8]) -> usize
    ensures { result ≡ length input.now }
{
    let mut rest = input;
    let mut number = 0;
    while !rest.is_empty() {
        rest = turn(rt, rest, number);
        number = number.wrapping_add(1);
    }
    input.len() - rest.len()
}

// The first script of `input`: its length in four bytes, then its bytes. Answers what comes after it, and nothing where it
// is not whole.
fn turn<'a>(rt: &impl Print, input: &'a [u8], number: u64) -> &'a [u8]
    requires { 0 < length input.now }
    ensures { length result.now < length input.now }
{
    let Some((header, rest)) = input.split_first_chunk::<4>() else {
        return &[];
    };
    // std has no `From<u32>` for usize.
    let length = u32::from_le_bytes(*header) as usize;
    let Some((script, rest)) = rest.split_at_checked(length) else {
        return &[];
    };
    title(rt, number);
    print(rt, script);
    rest
}

// `script,0`. What cannot be written is lost.
fn title(rt: &impl Print, number: u64) {
    let _ = println!(rt; "script,{number}");
}

// Prints the listing of a script. What cannot be written is lost.
fn print(rt: &impl Print, script: &[u8]) {
    let mut text = [0u8; LISTING];
    let n = listing(script, &mut text);
    let _ = rt.write_all(front(n, &text));
}
