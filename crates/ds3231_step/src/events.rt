// The four events, each on the whole chip, as the Rust has them.
ghost use Rattle.std.specs.Prelude.{◌≡◌, option_to_list};
ghost use Rattle.ds3231.specs.Timing.{phase_for};
ghost use Rattle.ds3231.specs.Calls.{replied_only, started, written, has_read, stopped, step as stepBy};
ghost use Rattle.ds3231.specs.declared.Phase.TheVariants.{Pointer, Writing};
ghost use Rattle.diagnostics.specs.Reports.{counted_all};
ghost use Rattle.ds3231_step.specs.Answers.{SteppedBy};

use crate::Stepped;
use crate::reports::{commit_report, counted, register_report};
use diagnostics::{I2cDiagnostic, I2cDiagnosticKind};
use ds3231::{Ds3231, Event, Phase, Register, Reply, Timing};
use ds3231_registers::{registers, timing};
use fields::YEAR;

// The chip's address on the bus.
const ADDRESS: u8 = 0x68;

// What a READ gives where the chip leaves the line to its pull-up.
const NOT_DRIVEN: u8 = 0xFF;

// An event on any chip: an arm for each, since each has values of its own.
pub fn step(chip: Ds3231, event: Event) -> Stepped
    ensures { SteppedBy (stepBy event chip) chip result }
{
    match event {
        Event::Start { address, read, at } => start(chip, address, read, at),
        Event::Write { byte, at } => write(chip, byte, at),
        Event::Read { at, .. } => read(chip, at),
        Event::Stop { at } => stop(chip, at),
    }
}

// START: it ends the transaction before it and latches the time, whomever it addresses.
fn start(chip: Ds3231, address: u8, read: bool, at: u64) -> Stepped
    ensures { SteppedBy (started address read at chip) chip result }
{
    let before = chip.timing;
    let clock = timing::commit(before);
    let after = Timing {
        phase: addressed(address, read),
        clock,
        latched: timing::shown(clock, before.twelve_hour, at),
        pending: None,
        ..before
    };
    let report = commit_report(before.pending, at);
    Stepped {
        chip: with_timing(chip, after, report),
        reply: Reply::Acknowledge(address == ADDRESS),
        report,
    }
}

// The phase after a START: only 0x68 is addressed.
fn addressed(address: u8, read: bool) -> Phase
    ensures { result ≡ phase_for address read }
{
    if address != ADDRESS {
        return Phase::Released;
    }
    if read { Phase::Reading } else { Phase::Pointer }
}

// WRITE: the pointer, or a byte to the register at the pointer.
fn write(chip: Ds3231, byte: u8, at: u64) -> Stepped
    ensures { SteppedBy (written chip.timing.phase byte at chip) chip result }
{
    match chip.timing.phase {
        Phase::Pointer => write_pointer(chip, byte, at),
        Phase::Writing => write_register(chip, byte, at),
        Phase::Ignoring => only_reply(chip, Reply::Acknowledge(true)),
        Phase::Released => only_reply(chip, Reply::Acknowledge(false)),
        Phase::Reading => only_reply(chip, Reply::Acknowledge(false)),
    }
}

// An event that changes and reports nothing.
fn only_reply(chip: Ds3231, reply: Reply) -> Stepped
    ensures { SteppedBy (replied_only reply chip) chip result }
{
    Stepped {
        chip,
        reply,
        report: None,
    }
}

// The pointer byte: after one above 0x12, which is reported, the bytes that follow are dropped.
fn write_pointer(chip: Ds3231, byte: u8, at: u64) -> Stepped
    ensures { SteppedBy (written Pointer byte at chip) chip result }
{
    let before = chip.timing;
    let mut after = Timing {
        phase: Phase::Ignoring,
        ..before
    };
    let mut report = Some(I2cDiagnostic::new(
        at,
        I2cDiagnosticKind::NoSuchRegister { register: byte },
    ));
    if let Ok(pointer) = Register::try_from(byte) {
        after = Timing {
            phase: Phase::Writing,
            pointer,
            ..before
        };
        report = None;
    }
    Stepped {
        chip: with_timing(chip, after, report),
        reply: Reply::Acknowledge(true),
        report,
    }
}

// A byte to the register at the pointer, which moves on.
fn write_register(chip: Ds3231, byte: u8, at: u64) -> Stepped
    ensures { SteppedBy (written Writing byte at chip) chip result }
{
    let before = chip.timing;
    let register = before.pointer.number();
    let decoded = fields::decode(register, byte);
    let report = register_report(decoded.is_some(), chip.registers, before.pointer, byte, at);
    // A byte at a time register, by its number as in `register_report`, leaves the other registers.
    let mut registers = chip.registers;
    if register > YEAR {
        registers = registers::write_register(registers, register, byte, at);
    }
    let after = Ds3231 {
        timing: timing::accept(before, decoded, at),
        registers,
        diagnostics: counted(chip.diagnostics, report),
    };
    Stepped {
        chip: after,
        reply: Reply::Acknowledge(true),
        report,
    }
}

// READ: the byte at the pointer, which moves on, 0xFF where the chip is not addressed for reading.
fn read(chip: Ds3231, at: u64) -> Stepped
    ensures { SteppedBy (has_read chip.timing.phase at chip) chip result }
{
    let before = chip.timing;
    let mut byte = NOT_DRIVEN;
    let mut after = before;
    if before.phase == Phase::Reading {
        byte = registers::register_byte(before.latched, chip.registers, before.pointer, at);
        after.pointer = before.pointer.next();
        if after.pointer == Register::Seconds {
            after.latched = timing::shown(before.clock, before.twelve_hour, at);
        }
    }
    Stepped {
        chip: with_timing(chip, after, None),
        reply: Reply::Byte(byte),
        report: None,
    }
}

// STOP: it ends the transaction.
fn stop(chip: Ds3231, at: u64) -> Stepped
    ensures { SteppedBy (stopped at chip) chip result }
{
    let before = chip.timing;
    let after = Timing {
        phase: Phase::Released,
        clock: timing::commit(before),
        pending: None,
        ..before
    };
    let report = commit_report(before.pending, at);
    Stepped {
        chip: with_timing(chip, after, report),
        reply: Reply::Done,
        report,
    }
}

// The chip with another timing, and the report counted.
fn with_timing(chip: Ds3231, timing: Timing, report: Option<I2cDiagnostic>) -> Ds3231
    ensures { result ≡ record { timing = timing; registers = chip.registers; diagnostics = counted_all (option_to_list report) chip.diagnostics } }
{
    Ds3231 {
        timing,
        diagnostics: counted(chip.diagnostics, report),
        ..chip
    }
}
