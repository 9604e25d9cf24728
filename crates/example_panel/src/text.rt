// The answers, a line each.
use calendar::DateTime;
use diagnostics::{I2cDiagnostic, LentError};
use ds3231::Reply;
use ds3231_bus::TakeError;
use listing::{LINE, diagnostic_lines};
use script::RunError;
use script_listing::front;
use std::fmt::Display;

pub(crate) fn no_script(rt: &impl Print) {
    line(rt, "the script has fewer than five records");
}

pub(crate) fn ok(rt: &impl Print) {
    line(rt, "ok");
}

// No call of this program is refused: a line that the file `stdout` does not have.
pub(crate) fn refused(rt: &impl Print) {
    line(rt, "refused");
}

// An answer, or that it was refused, for which this program has one line.
pub(crate) fn answer<T, E: Drop, F: FnOnce(T) + Drop>(
    rt: &impl Print,
    answer: Result<T, E>,
    print: F,
)
    requires { (value : T) → F.pre print value }
{
    match answer {
        Ok(value) => print(value),
        Err(_) => refused(rt),
    }
}

pub(crate) fn bus(rt: &impl Print, reply: Result<Reply, LentError>) {
    answer(rt, reply, |reply| byte(rt, u8::from(reply)));
}

// `2026-01-01T00:00:00`.
pub(crate) fn now(rt: &impl Print, time: DateTime) {
    let _ = println!(rt; "{time}");
}

pub(crate) fn run(rt: &impl Print, answer: Result<(), RunError>, answers: [u8; 5]) {
    match answer {
        Ok(()) => {
            for answer in answers {
                byte(rt, answer);
            }
        }
        Err(_) => refused(rt),
    }
}

// Records and count go on as `diagnostic_lines` takes them.
pub(crate) fn taken(rt: &impl Print, answer: Result<usize, TakeError>, out: [I2cDiagnostic; 256]) {
    match answer {
        Ok(count) => {
            number(rt, count);
            let mut text = [0u8; LINE * 256];
            let n = diagnostic_lines(&mut text, 0, out, count);
            let _ = rt.write_all(front(n, &text));
        }
        Err(_) => refused(rt),
    }
}

// What cannot be written is lost.
fn line(rt: &impl Print, text: &str) {
    let _ = println!(rt; "{text}");
}

pub(crate) fn number(rt: &impl Print, count: impl Display + Drop) {
    let _ = println!(rt; "{count}");
}

pub(crate) fn byte(rt: &impl Print, value: u8) {
    let _ = println!(rt; "{value:02x}");
}
