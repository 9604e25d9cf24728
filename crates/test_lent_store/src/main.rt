// The lent store of diagnostics: it fills, overflows, is taken from and fills again; takings and calls that are refused.
// Report k is made at instant k, so that a record tells which report it is. The numbers of the file `stdout` are worked out by hand
// from document 01.
#![tactic(auto)]

use bus_by_value::{Reporting, Session};
use diagnostics::{Diagnostics, I2cDiagnostic, I2cDiagnosticKind, LentError};
use ds3231::{Ds3231, Ds3231Config, Reply};
use ds3231_bus::TakeError;
use ds3231_chip::{no_chip, power_on};
use refusals::Refusal;
use std::fmt::Display;

// The instant in a record that no report was written to.
const NO_REPORT: u64 = 1_000;

// A chip with its store of 256 records.
type Whole = Session<256>;

fn main(rt: HostRuntime) {
    let mut session = begun();
    calls(&mut session, 0, 300);
    counts_of(&rt, &session);
    let mut out = [unwritten(); 256];
    take(&rt, &mut session, &mut out);
    line(&rt, "out 0", out[0].at);
    line(&rt, "out 255", out[255].at);
    calls(&mut session, 300, 303);
    counts_of(&rt, &session);
    in_store(&rt, &session);
    takings(&rt, session);
    refused_call(&rt, begun());
    reports(&rt);
}

// A chip at power-on.
fn powered() -> Ds3231 {
    power_on(Ds3231Config::default()).unwrap_or(no_chip())
}

// A chip at power-on, with a store to which nothing was written.
fn begun() -> Whole {
    Session {
        chip: powered(),
        store: [unwritten(); 256],
    }
}

// A record that no report was written to, told apart by its instant.
fn unwritten() -> I2cDiagnostic {
    I2cDiagnostic {
        at: NO_REPORT,
        ..I2cDiagnostic::unwritten()
    }
}

// Reports `from` to `to`: each is a pointer byte that names no register.
fn calls(session: &mut Whole, from: u64, to: u64) {
    for at in from..to {
        let _ = session.address(0x68, false, at);
        let _ = session.write(0x13, at);
    }
}

// How many records wait, and how many reports were dropped.
fn counts_of(rt: &impl Print, session: &Whole) {
    print_counts(rt, session.chip.diagnostics);
}

fn print_counts(rt: &impl Print, counts: Diagnostics) {
    line(rt, "waiting", counts.waiting);
    line(rt, "dropped", counts.dropped);
}

// What cannot be written is lost.
fn line(rt: &impl Print, word: &str, number: impl Display + Drop) {
    let _ = println!(rt; "{word},{number}");
}

fn refused(rt: &impl Print, error: &impl Refusal) {
    line(rt, "refused", error.number());
}

// Takes the records that wait, and prints how many there are.
fn take(rt: &impl Print, session: &mut Whole, out: &mut [I2cDiagnostic]) {
    match session.take(out) {
        Ok(count) => line(rt, "taken", count),
        Err(error) => refused(rt, &error),
    }
}

// After three reports more: the first three places are written again, the fourth holds the record of report 3.
fn in_store(rt: &impl Print, session: &Whole) {
    line(rt, "store 0", session.store[0].at);
    line(rt, "store 2", session.store[2].at);
    line(rt, "store 3", session.store[3].at);
}

// Three wait: two records are too few, and output and counts stay. Then 256 records, of which the fourth stays; then two
// for two.
fn takings(rt: &impl Print, mut session: Whole) {
    take_two(rt, &mut session);
    counts_of(rt, &session);
    let mut out = [unwritten(); 256];
    take(rt, &mut session, &mut out);
    line(rt, "out 0", out[0].at);
    line(rt, "out 2", out[2].at);
    line(rt, "out 3", out[3].at);
    calls(&mut session, 303, 305);
    counts_of(rt, &session);
    take_two(rt, &mut session);
}

fn take_two(rt: &impl Print, session: &mut Whole) {
    let mut out = [unwritten(); 2];
    take(rt, session, &mut out);
    line(rt, "out 0", out[0].at);
    line(rt, "out 1", out[1].at);
}

// START, then WRITE 00 with a store of 255 records, which is refused. The chip still waits for the pointer: it takes 0E for
// it, and a read gives control.
fn refused_call(rt: &impl Print, mut session: Whole) {
    let _ = session.address(0x68, false, 1);
    let mut short = Session {
        chip: session.chip,
        store: [unwritten(); 255],
    };
    print_answer(rt, short.write(0x00, 2));
    line(rt, "store 0", short.store[0].at);
    session.chip = short.chip;
    print_answer(rt, session.write(0x0E, 3));
    counts_of(rt, &session);
    let _ = session.address(0x68, true, 4);
    print_answer(rt, session.read(false, 5));
}

fn print_answer(rt: &impl Print, answer: Result<Reply, LentError>) {
    match answer {
        Ok(Reply::Acknowledge(acknowledged)) => line(rt, "acknowledge", u8::from(acknowledged)),
        Ok(Reply::Byte(byte)) => line(rt, "byte", byte),
        Ok(Reply::Done) => line(rt, "done", 0),
        Err(error) => refused(rt, &error),
    }
}

// 300 reports by `report` itself; then one with counts of which 257 wait.
fn reports(rt: &impl Print) {
    let mut reporting = Reporting {
        counts: Diagnostics::default(),
        store: [unwritten(); 256],
    };
    for at in 0..300u64 {
        let _ = report(&mut reporting, at);
    }
    print_counts(rt, reporting.counts);
    line(rt, "store 0", reporting.store[0].at);
    line(rt, "store 255", reporting.store[255].at);
    reporting.counts = Diagnostics {
        waiting: 257,
        dropped: 44,
    };
    match report(&mut reporting, 300) {
        Ok(()) => line(rt, "done", 0),
        Err(error) => refused(rt, &error),
    }
    print_counts(rt, reporting.counts);
    line(rt, "store 255", reporting.store[255].at);
}

fn report(reporting: &mut Reporting<256>, at: u64) -> Result<(), LentError> {
    reporting.report(I2cDiagnosticKind::NoSuchRegister { register: 0x13 }, at)
}
