// Reads a script from standard input, runs it from power-on and prints its listing, or why it is refused.
// An input that cannot be read, an output that cannot be written and an argument each get a line on standard error.
#![tactic(auto)]

mod words;

use script_listing::{INPUT, LISTING, front, input_listing};
use std::env::FillError;
use std::io;
use std::rt::{Env, Stdout};
use streams::{WriteError, read_input, write_output};
use words::Words;

fn main(rt: HostRuntime) {
    if has_argument(&rt) {
        usage(&rt);
        return;
    }
    let mut input = [0u8; INPUT];
    match read_input(&mut rt.stdin(), &mut input) {
        Ok(n) => print(&rt, rt.stdout(), input, n),
        Err(e) => fail(&rt, "standard input", e.error),
    }
}

// Whether there is an argument behind the program's name.
fn has_argument(rt: &impl Env) -> bool {
    let mut start = [0u8; 1];
    match rt.arg(1, &mut start) {
        Err(FillError::NotPresent) => false,
        _ => true,
    }
}

// How it is used. What standard error does not take is lost.
fn usage(rt: &impl Eprint) {
    let _ = eprintln!(rt; "usage: clockrun <SCRIPT >LISTING (it takes no argument)");
}

// Prints the listing of an input by the first `n` bytes that were read of it, in the array that `input_listing` asks for.
fn print(rt: &impl Eprint, mut output: Stdout, input: [u8; INPUT], n: usize) {
    let mut out = [0u8; LISTING];
    let length = input_listing(input, n, &mut out);
    match write_output(&mut output, front(length, &out)) {
        Ok(()) => {}
        Err(WriteError::Failed { error, .. }) => fail(rt, "standard output", error),
        Err(WriteError::Zero { .. }) => ended(rt, "standard output"),
    }
}

// What failed, and the system's words. What standard error does not take is lost.
fn fail(rt: &impl Eprint, what: &str, error: io::Error) {
    let words = Words(error);
    let _ = eprintln!(rt; "{what}: {words}");
}

// What took no byte, for which the system has no words. What standard error does not take is lost.
fn ended(rt: &impl Eprint, what: &str) {
    let _ = eprintln!(rt; "{what}");
}
