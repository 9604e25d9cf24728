// A run of a script whose chip and store are both read afterwards, into one number: tools/bench measures it, and no host
// needs it.
#![tactic(auto)]

ghost use Rattle.std.specs.Prelude.{◌≡◌, length};
ghost use Rattle.refusals.specs.Numbered.{unless};
ghost use Rattle.script_check.specs.Records.{records_in};
ghost use Rattle.script.specs.Runs.{checked_run, answers_to, clockrun_held};

use diagnostics::{I2cDiagnostic, I2cDiagnosticKind};
use ds3231::{Clock, Ds3231, PendingTime, Registers, Timing};
use refusals::Refusal;
use script::run_from_power_on;

// Runs a script as `clock_script_run` does. The number is for tools/bench alone, which only needs every field of the chip
// and of the store to be read: no contract fixes it. The clause of the answers is that of `clock_script_run`, written out as there.
pub fn clock_script_digest(script: &[u8], answers: &mut [u8]) -> u64
    ensures { answers.new ≡ unless (checked_run script.now (length answers.old)) (answers_to script.now clockrun_held (records_in script.now)) answers.old }
{
    match run_from_power_on(script, answers) {
        Ok(ran) => chip_number(ran.chip) ^ store_number(ran.records),
        Err(error) => u64::from(error.number()),
    }
}

// The number of a chip. std has no `From<usize>` for u64.
fn chip_number(chip: Ds3231) -> u64 {
    let counts = chip.diagnostics;
    timing_number(chip.timing)
        ^ registers_number(chip.registers)
        ^ counts.waiting as u64
        ^ counts.dropped
}

// A phase has no number but the one that `as` takes.
fn timing_number(timing: Timing) -> u64 {
    let phase = timing.phase as u8;
    let pointer = timing.pointer.number();
    let twelve_hour = u8::from(timing.twelve_hour);
    seven([phase, pointer, twelve_hour, 0, 0, 0, 0])
        ^ clock_number(timing.clock)
        ^ seven(timing.latched)
        ^ timing.pending.map_or(0, pending_number)
        ^ timing.pending_at
}

fn clock_number(clock: Clock) -> u64 {
    clock.base_seconds ^ clock.base_at ^ u64::from(clock.weekday_offset)
}

fn pending_number(pending: PendingTime) -> u64 {
    let time = pending.time;
    let bytes = [
        time.month,
        time.day,
        time.hour,
        time.minute,
        time.second,
        pending.weekday,
        0,
    ];
    seven(bytes) ^ u64::from(time.year)
}

fn registers_number(registers: Registers) -> u64 {
    let reported = u8::from(registers.int_sqw_reported);
    let bytes = [
        registers.control,
        registers.status,
        registers.aging,
        reported,
        0,
        0,
        0,
    ];
    seven(bytes)
        ^ seven(registers.alarms)
        ^ registers.conversion_end.unwrap_or(0)
        ^ registers.conversion_nanos
        ^ u64::from(registers.temperature_quarters.abs_diff(i16::MIN))
}

// The number of the records of a store.
fn store_number(records: [I2cDiagnostic; 256]) -> u64 {
    let mut number = 0;
    for record in &records {
        number ^= record.at ^ kind_number(record.kind);
    }
    number
}

// A kind's place among the four, then its bytes: a variant that has bytes is not cast to a number.
fn kind_number(kind: I2cDiagnosticKind) -> u64 {
    match kind {
        I2cDiagnosticKind::NotModelled { value } => seven([0, value, 0, 0, 0, 0, 0]),
        I2cDiagnosticKind::ReadOnly { register } => seven([1, register, 0, 0, 0, 0, 0]),
        I2cDiagnosticKind::NoSuchRegister { register } => seven([2, register, 0, 0, 0, 0, 0]),
        I2cDiagnosticKind::Undefined { register, value } => seven([3, register, value, 0, 0, 0, 0]),
    }
}

// The number of seven bytes, lowest first: `from_le_bytes` takes eight.
fn seven(bytes: [u8; 7]) -> u64 {
    let [a, b, c, d, e, f, g] = bytes;
    u64::from_le_bytes([a, b, c, d, e, f, g, 0])
}
