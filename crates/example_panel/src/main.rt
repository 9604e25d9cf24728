// What a Rattle program can call: power-on, the bus calls on a session, what can be asked of a chip, a script on a chip that is
// not clockrun's, and taking. It reads the script, of five records, from standard input.
// The file `stdin` is examples/status.script, and `stdout` has the answers of the Rust to the calls of
// tools/oracle/expected/example_panel.calls.
#![tactic(auto)]

mod text;

use bus_by_value::Session;
use calendar::DateTime;
use diagnostics::I2cDiagnostic;
use ds3231::{Ds3231, Ds3231Config};
use ds3231_chip::{dropped_diagnostics, no_chip, now, power_on, register};
use script::run_values;
use streams::read_full;

// A chip with its store of 256 records.
type Panel = Session<256>;

fn main(rt: HostRuntime) {
    let mut script = [0u8; 80];
    if read_full(&mut rt.stdin(), &mut script) < script.len() {
        text::no_script(&rt);
    } else {
        panel(&rt, &script);
    }
}

// Sets a chip's hour, polls its status by a script of five records, and takes what was reported; then another chip.
fn panel(rt: &impl Print, script: &[u8]) {
    let mut session = Session::new(powered(rt));
    set_the_hour(rt, &mut session);
    poll(rt, &mut session, script);
    take(rt, &mut session);
    run_elsewhere(rt, powered(rt), script);
}

// A chip at power-on.
fn powered(rt: &impl Print) -> Ds3231 {
    match power_on(lost_battery()) {
        Ok(chip) => {
            text::ok(rt);
            chip
        }
        Err(_) => {
            text::refused(rt);
            no_chip()
        }
    }
}

// A panel whose battery was empty: the oscillator had stopped. It has 22.5 degrees, and the conversion time of a script's power-on.
fn lost_battery() -> Ds3231Config {
    Ds3231Config {
        start: DateTime {
            year: 2027,
            month: 12,
            day: 31,
            hour: 23,
            minute: 59,
            second: 57,
        },
        oscillator_stopped: true,
        temperature_quarters: 90,
        ..Ds3231Config::default()
    }
}

// Sets the hour to 1 PM, writes a weekday that is none, and asks the chip at 2.5 s.
fn set_the_hour(rt: &impl Print, session: &mut Panel) {
    text::bus(rt, session.address(0x68, false, 1_000_000_000));
    text::bus(rt, session.write(0x02, 1_000_100_000));
    text::bus(rt, session.write(0x61, 1_000_200_000));
    text::bus(rt, session.write(0x08, 1_000_300_000));
    text::bus(rt, session.stop(1_000_400_000));
    text::answer(
        rt,
        now(session.chip, 2_500_000_000),
        |time| text::now(rt, time),
    );
    show_register(rt, session.chip, 0x11);
    show_register(rt, session.chip, 0x12);
    text::answer(
        rt,
        dropped_diagnostics(session.chip),
        |count| text::number(rt, count),
    );
}

// A register at 2.5 s.
fn show_register(rt: &impl Print, chip: Ds3231, number: u8) {
    text::answer(
        rt,
        register(chip, number, 2_500_000_000),
        |byte| text::byte(rt, byte),
    );
}

// Runs the script on the session's chip and store.
fn poll(rt: &impl Print, session: &mut Panel, script: &[u8]) {
    let mut answers = [0u8; 5];
    let answer = session.run(script, &mut answers);
    text::run(rt, answer, answers);
}

// Takes the diagnostics that wait.
fn take(rt: &impl Print, session: &mut Panel) {
    let mut out = [I2cDiagnostic::unwritten(); 256];
    let answer = session.take(&mut out);
    text::taken(rt, answer, out);
}

// Runs the script on another chip, by value.
fn run_elsewhere(rt: &impl Print, chip: Ds3231, script: &[u8]) {
    let mut answers = [0u8; 5];
    let outcome = run_values(
        chip,
        [I2cDiagnostic::unwritten(); 256],
        script,
        &mut answers,
    );
    text::run(rt, outcome.map(|_| ()), answers);
}
