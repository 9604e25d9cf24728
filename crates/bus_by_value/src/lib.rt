// A chip, or the counts of the reports, with a store of N records as one value, for programs: each method but `new` lends both to
// a call.
// To read it: each contract is that of the call in `ds3231_bus`, `diagnostics` or `script`, on chip and store before and after.
#![tactic(auto)]

ghost use Rattle.ds3231.specs.declared.Event.TheVariants.{Start, Write, Read, Stop};
ghost use Rattle.std.specs.Prelude.{◌≡◌, replicate};
ghost use Rattle.diagnostics.specs.Reports.{unwritten, report as report_of};
ghost use Rattle.diagnostics.specs.Lent.{ReportedTo};
ghost use Rattle.ds3231_bus.specs.Answers.{Called, Took};
ghost use Rattle.script.specs.Runs.{Ran};

use diagnostics::{Diagnostics, I2cDiagnostic, I2cDiagnosticKind, LentError};
use ds3231::{Ds3231, Reply};
use ds3231_bus::{I2cTarget, TakeError, take_diagnostics};
use script::{RunError, run};

// A chip and a store of N records.
#[derive(Clone, Copy, Debug)]
pub struct Session<const N: usize> {
    pub chip: Ds3231,
    pub store: [I2cDiagnostic; N],
}

impl<const N: usize> Session<N> {
    // The chip, with a store to which nothing was written.
    pub fn new(chip: Ds3231) -> Session<N>
        ensures { result ≡ record { chip = chip; store = replicate N unwritten } }
    {
        Session {
            chip,
            store: [I2cDiagnostic::unwritten(); N],
        }
    }

    // START.
    pub fn address(&mut self, address: u8, read: bool, at: u64) -> Result<Reply, LentError>
        ensures { Called (Start address read at) self.old.chip self.old.store result self.new.chip self.new.store }
    {
        self.chip.address(&mut self.store, address, read, at)
    }

    // WRITE.
    pub fn write(&mut self, byte: u8, at: u64) -> Result<Reply, LentError>
        ensures { Called (Write byte at) self.old.chip self.old.store result self.new.chip self.new.store }
    {
        self.chip.write(&mut self.store, byte, at)
    }

    // READ.
    pub fn read(&mut self, acknowledged: bool, at: u64) -> Result<Reply, LentError>
        ensures { Called (Read acknowledged at) self.old.chip self.old.store result self.new.chip self.new.store }
    {
        self.chip.read(&mut self.store, acknowledged, at)
    }

    // STOP.
    pub fn stop(&mut self, at: u64) -> Result<Reply, LentError>
        ensures { Called (Stop at) self.old.chip self.old.store result self.new.chip self.new.store }
    {
        self.chip.stop(&mut self.store, at)
    }

    // Taking.
    pub fn take(&mut self, out: &mut [I2cDiagnostic]) -> Result<usize, TakeError>
        ensures { Took self.old.chip self.old.store out.old result self.new.chip self.new.store out.new }
    {
        take_diagnostics(&mut self.chip, &self.store, out)
    }

    // The run of a script.
    pub fn run(&mut self, script: &[u8], answers: &mut [u8]) -> Result<(), RunError>
        ensures { Ran (record { chip = self.old.chip; store = self.old.store }) script.now answers.old result self.new.chip self.new.store answers.new }
    {
        run(&mut self.chip, &mut self.store, script, answers)
    }
}

// The counts and a store of N records.
#[derive(Clone, Copy, Debug)]
pub struct Reporting<const N: usize> {
    pub counts: Diagnostics,
    pub store: [I2cDiagnostic; N],
}

impl<const N: usize> Reporting<N> {
    // One more report.
    pub fn report(&mut self, kind: I2cDiagnosticKind, at: u64) -> Result<(), LentError>
        ensures { ReportedTo self.old.counts self.old.store (report_of at kind) result self.new.counts self.new.store }
    {
        self.counts.report(&mut self.store, kind, at)
    }
}
