// The bus events of the DS3231 by value, one function each: START, WRITE, READ, STOP.
// `step` is no call of document 01: it takes every chip and tests none, and it has no store. The calls of `ds3231_bus` and
// the run of `script` go through it, after their tests.
// To read it: `events` has the four functions, and `reports` what is reported. `specs/Answers.antt` says what they promise:
// the step that `ds3231`'s definition `step` makes.
#![tactic(auto)]

use diagnostics::I2cDiagnostic;
use ds3231::{Ds3231, Reply};

mod events;
mod reports;

pub use events::step;

// The chip after an event, its reply, and what it reports: at most one record.
#[derive(Clone, Copy, Debug)]
pub struct Stepped {
    pub chip: Ds3231,
    pub reply: Reply,
    pub report: Option<I2cDiagnostic>,
}
