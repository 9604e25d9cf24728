// What a byte written and a commit report, and the counts after a report.
ghost use Rattle.std.specs.Prelude.{not, ◌&&◌, [], ◌∷◌, ◌≡◌, if◌then◌else◌, option_to_list};
ghost use Rattle.diagnostics.specs.Reports.{report, counted_all};
ghost use Rattle.diagnostics.specs.declared.I2cDiagnosticKind.TheVariants.{NotModelled, Undefined};
ghost use Rattle.fields.specs.Table.{meaning};
ghost use Rattle.ds3231.specs.Map.{number_of};
ghost use Rattle.ds3231.specs.Timing.{is_defined};
ghost use Rattle.ds3231.specs.Registers.{enables_output};
ghost use Rattle.ds3231.specs.Calls.{commit_reports, register_reports};

use calendar::days_in_month;
use diagnostics::{Diagnostics, I2cDiagnostic, I2cDiagnosticKind};
use ds3231::{PendingTime, Register, Registers};
use ds3231_registers::registers::enables_output;
use fields::{YEAR, to_bcd};

// What a byte written to a register reports: `defined` says whether it is defined there, and which field it sets is of no matter.
// Registers are compared by number: with an arm for each, setting the time is slower than the Rust where chip and store are read.
pub(crate) fn register_report(
    defined: bool,
    registers: Registers,
    register: Register,
    byte: u8,
    at: u64,
) -> Option<I2cDiagnostic>
    requires { defined ≡ is_defined (meaning (number_of register) byte) }
    ensures { option_to_list result ≡ register_reports (number_of register) byte at registers }
{
    let number = register.number();
    if number <= YEAR {
        return time_report(defined, number, byte, at);
    }
    if register == Register::Control {
        return control_report(registers, byte, at);
    }
    if number >= Register::TemperatureMsb.number() {
        return Some(I2cDiagnostic::new(at, I2cDiagnosticKind::ReadOnly { register: number }));
    }
    None
}

// The first control byte since power-on that enables the INT/SQW output is reported.
fn control_report(registers: Registers, byte: u8, at: u64) -> Option<I2cDiagnostic>
    ensures { option_to_list result ≡ (if enables_output byte && not registers.int_sqw_reported then report at (NotModelled byte) ∷ [] else []) }
{
    if enables_output(byte) & !registers.int_sqw_reported {
        return Some(I2cDiagnostic::new(at, I2cDiagnosticKind::NotModelled { value: byte }));
    }
    None
}

// A byte written to a time register is reported where it is not defined.
fn time_report(defined: bool, register: u8, byte: u8, at: u64) -> Option<I2cDiagnostic>
    ensures { option_to_list result ≡ (if defined then [] else report at (Undefined register byte) ∷ []) }
{
    if defined {
        return None;
    }
    let kind = I2cDiagnosticKind::Undefined {
        register,
        value: byte,
    };
    Some(I2cDiagnostic::new(at, kind))
}

// A commit of a pending time reports a day past the end of its month, in the digits of its register.
pub(crate) fn commit_report(pending: Option<PendingTime>, at: u64) -> Option<I2cDiagnostic>
    ensures { option_to_list result ≡ commit_reports at pending }
{
    let time = pending?.time;
    if time.day <= days_in_month(time.year, time.month) {
        return None;
    }
    let kind = I2cDiagnosticKind::Undefined {
        register: Register::Date.number(),
        value: to_bcd(time.day),
    };
    Some(I2cDiagnostic::new(at, kind))
}

// The counts after a report: it waits in the store, or is dropped where the store is full.
pub(crate) fn counted(counts: Diagnostics, report: Option<I2cDiagnostic>) -> Diagnostics
    ensures { result ≡ counted_all (option_to_list report) counts }
{
    match report {
        Some(_) => counts.one_more(),
        None => counts,
    }
}
