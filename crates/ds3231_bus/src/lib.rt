// The DS3231 as a target on the bus: the public calls take the chip by mutable reference and a lent store of 256 records.
// Each is thin: it copies the chip out, asks a function by value what the call leaves (`outcomes`, `takings`), and stores
// that; a report goes to the store by `diagnostics::post`. A refusal leaves chip, store and output as they are. Chip and store
// are lent apart, as document 01 has it; `bus_by_value` has both as one value.
#![tactic(auto)]

ghost use Rattle.std.specs.Prelude.{List, Result};
ghost use Rattle.diagnostics.specs.declared.I2cDiagnostic.{I2cDiagnostic as Record};
ghost use Rattle.diagnostics.specs.declared.LentError.{LentError as Refused};
ghost use Rattle.ds3231.specs.declared.Event.{Event as BusEvent};
ghost use Rattle.ds3231.specs.declared.Event.TheVariants.{Start, Write, Read, Stop};
ghost use Rattle.ds3231.specs.declared.Reply.{Reply as Answer};
ghost use Rattle.ds3231_bus.specs.Answers.{Called, Took};

use diagnostics::{I2cDiagnostic, LentError, post};
use ds3231::{Ds3231, Event, Reply};

mod outcomes;
mod takings;

pub use takings::TakeError;

// A target on the I2C bus, which reports into a lent store.
pub trait I2cTarget {
    // What an event on the target and the store answers, and leaves of both.
    ghost called: { BusEvent → Self → List Record → Result Answer Refused → Self → List Record → Type 0 };

    // START: it ends the transaction before it and latches the time, whomever it addresses.
    fn address(
        &mut self,
        store: &mut [I2cDiagnostic],
        address: u8,
        read: bool,
        at: u64,
    ) -> Result<Reply, LentError>
        ensures { called (Start address read at) self.old store.old result self.new store.new };

    // WRITE: the pointer, or a byte to the register at the pointer.
    fn write(&mut self, store: &mut [I2cDiagnostic], byte: u8, at: u64) -> Result<Reply, LentError>
        ensures { called (Write byte at) self.old store.old result self.new store.new };

    // READ: the byte at the pointer, 0xFF where the target is not addressed for reading. It reports nothing.
    fn read(
        &mut self,
        store: &mut [I2cDiagnostic],
        acknowledged: bool,
        at: u64,
    ) -> Result<Reply, LentError>
        ensures { called (Read acknowledged at) self.old store.old result self.new store.new };

    // STOP: it ends the transaction.
    fn stop(&mut self, store: &mut [I2cDiagnostic], at: u64) -> Result<Reply, LentError>
        ensures { called (Stop at) self.old store.old result self.new store.new };
}

impl I2cTarget for Ds3231 {
    ghost called = { Called };

    fn address(
        &mut self,
        store: &mut [I2cDiagnostic],
        address: u8,
        read: bool,
        at: u64,
    ) -> Result<Reply, LentError> {
        call(self, store, Event::Start { address, read, at })
    }

    fn write(
        &mut self,
        store: &mut [I2cDiagnostic],
        byte: u8,
        at: u64,
    ) -> Result<Reply, LentError> {
        call(self, store, Event::Write { byte, at })
    }

    fn read(
        &mut self,
        store: &mut [I2cDiagnostic],
        acknowledged: bool,
        at: u64,
    ) -> Result<Reply, LentError> {
        call(self, store, Event::Read { acknowledged, at })
    }

    fn stop(&mut self, store: &mut [I2cDiagnostic], at: u64) -> Result<Reply, LentError> {
        call(self, store, Event::Stop { at })
    }
}

// An event on a lent chip and a lent store.
fn call(chip: &mut Ds3231, store: &mut [I2cDiagnostic], event: Event) -> Result<Reply, LentError>
    ensures { Called event chip.old store.old result chip.new store.new }
{
    let out = outcomes::called(*chip, store.len(), event)?;
    *chip = out.chip;
    post(store, out.posting);
    Ok(out.reply)
}

// Taking: the records that wait, oldest first, go to the front of `out`, and the store fills again from its start. It answers
// how many there are.
pub fn take_diagnostics(
    chip: &mut Ds3231,
    store: &[I2cDiagnostic],
    out: &mut [I2cDiagnostic],
) -> Result<usize, TakeError>
    ensures { Took chip.old store.now out.old result chip.new store.now out.new }
{
    let taking = takings::taken(*chip, store.len(), out.len())?;
    *chip = taking.chip;
    out[..taking.count].copy_from_slice(&store[..taking.count]);
    Ok(taking.count)
}
