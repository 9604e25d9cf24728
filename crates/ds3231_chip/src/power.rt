// Power-on.
ghost use Rattle.std.specs.Prelude.{◌≡◌, if◌then◌else◌};
ghost use Rattle.refusals.specs.Numbered.{answered};
ghost use Rattle.ds3231.specs.Calls.{timing_from, registers_on, power_on};
ghost use Rattle.ds3231_chip.specs.Answers.{config_row, no_chip};
ghost use Rattle.ds3231_chip.specs.declared.power.Ds3231ConfigError.TheVariants.{Start};

use crate::sound::{in_conversion_times, in_quarters};
use calendar::{DateTimeError, SECONDS_IN_RANGE};
use diagnostics::Diagnostics;
use ds3231::{Clock, Ds3231, Ds3231Config, Phase, Register, Registers, Timing};
use ds3231_registers::registers::{EN32KHZ, OSF};
use ds3231_registers::{clock, timing};
use refusals::Refusal;
use thiserror::Error;

const CONTROL_POWER_ON: u8 = 0x1C;

// Why power-on is refused.
#[derive(Clone, Copy, Debug, PartialEq, Eq, Error)]
pub enum Ds3231ConfigError {
    #[error("the start time is invalid: {0}")]
    Start(DateTimeError),
    #[error("{0} quarters of a degree do not fit the DS3231's 10-bit temperature; give a temperature from −512 to 511 quarters (−128.00 to 127.75 °C)")]
    Temperature(i16),
    #[error("the conversion time is outside the DS3231's 125 to 200 ms; give 125,000,000 to 200,000,000 nanoseconds")]
    ConversionTime,
}

impl Refusal for Ds3231ConfigError {
    ghost row = { config_row };

    fn number(&self) -> u8 {
        match self {
            Ds3231ConfigError::Start(error) => error.number(),
            Ds3231ConfigError::Temperature(_) => 7,
            Ds3231ConfigError::ConversionTime => 22,
        }
    }
}

// Written out: a `From` that `#[from]` derives has no contract, and of the error that `?` then answers nothing is known.
impl From<DateTimeError> for Ds3231ConfigError {
    ghost from_gives = { λ d e. e ≡ Start d };

    fn from(error: DateTimeError) -> Ds3231ConfigError {
        Ds3231ConfigError::Start(error)
    }
}

// A clock at the configured start at instant 0, its pointer at 0x00.
pub fn power_on(config: Ds3231Config) -> Result<Ds3231, Ds3231ConfigError>
    ensures { answered config_row result ≡ power_on config }
{
    let weekday = config.start.weekday()?;
    if !in_quarters(config.temperature_quarters) {
        return Err(Ds3231ConfigError::Temperature(config.temperature_quarters));
    }
    if !in_conversion_times(config.conversion_nanos) {
        return Err(Ds3231ConfigError::ConversionTime);
    }
    Ok(Ds3231 {
        timing: timing_from(clock::set(config.start, weekday, 0)),
        registers: registers_on(config),
        diagnostics: Diagnostics::default(),
    })
}

fn timing_from(clock: Clock) -> Timing
    ensures { result ≡ timing_from clock }
{
    Timing {
        phase: Phase::Released,
        pointer: Register::Seconds,
        clock,
        twelve_hour: false,
        latched: timing::shown(clock, false, 0),
        pending: None,
        pending_at: 0,
    }
}

fn registers_on(config: Ds3231Config) -> Registers
    ensures { result ≡ registers_on config }
{
    Registers {
        alarms: [0; 7],
        control: CONTROL_POWER_ON,
        status: status_on(config.oscillator_stopped),
        conversion_end: None,
        conversion_nanos: config.conversion_nanos,
        aging: 0,
        temperature_quarters: config.temperature_quarters,
        int_sqw_reported: false,
    }
}

// OSF where the oscillator had stopped, a condition of its own as the bits of `fields`.
fn status_on(oscillator_stopped: bool) -> u8
    ensures { result ≡ (if oscillator_stopped then 0x88 else 0x08) }
{
    if oscillator_stopped {
        OSF | EN32KHZ
    } else {
        EN32KHZ
    }
}

// A chip that is not sound, for a program's variable where power-on is refused or not yet called: its base seconds and its
// conversion time are out of range, and every call on it gives 10. With an `Option` of a chip there each later call of the program
// would be an arm.
pub fn no_chip() -> Ds3231
    ensures { result ≡ no_chip }
{
    let clock = Clock {
        base_seconds: SECONDS_IN_RANGE,
        base_at: 0,
        weekday_offset: 0,
    };
    let timing = Timing {
        phase: Phase::Released,
        pointer: Register::Seconds,
        clock,
        twelve_hour: false,
        latched: [0; 7],
        pending: None,
        pending_at: 0,
    };
    let registers = Registers {
        alarms: [0; 7],
        control: 0,
        status: 0,
        conversion_end: None,
        conversion_nanos: 0,
        aging: 0,
        temperature_quarters: 0,
        int_sqw_reported: false,
    };
    let diagnostics = Diagnostics::default();
    Ds3231 {
        timing,
        registers,
        diagnostics,
    }
}
