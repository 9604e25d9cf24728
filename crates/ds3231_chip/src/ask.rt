// The calls that ask: `now`, `register` and the dropped count.
ghost use Rattle.std.specs.Prelude.{◌≡◌};
ghost use Rattle.refusals.specs.Numbered.{answered};
ghost use Rattle.diagnostics.specs.Lent.{not_sound_row};
ghost use Rattle.ds3231.specs.Calls.{now_answer, register_answer, dropped_answer};
ghost use Rattle.ds3231_chip.specs.Answers.{asked_row};
ghost use Rattle.ds3231_chip.specs.declared.ask.RegisterError.TheVariants.{NotSound as ChipNotSound, NoSuchRegister as NumberTooLarge};

use crate::sound::checked;
use calendar::DateTime;
use diagnostics::NotSound;
use ds3231::{Ds3231, NoSuchRegister, Register};
use ds3231_registers::{clock, registers, timing};
use refusals::Refusal;
use thiserror::Error;

// Why `register` is refused.
#[derive(Clone, Copy, Debug, PartialEq, Eq, Error)]
pub enum RegisterError {
    #[error(transparent)]
    NotSound(NotSound),
    #[error(transparent)]
    NoSuchRegister(NoSuchRegister),
}

impl Refusal for RegisterError {
    ghost row = { asked_row };

    fn number(&self) -> u8 {
        match self {
            RegisterError::NotSound(error) => error.number(),
            RegisterError::NoSuchRegister(error) => error.number(),
        }
    }
}

// Written out: a `From` that `#[from]` derives has no contract, and of the error that `?` then answers nothing is known.
impl From<NotSound> for RegisterError {
    ghost from_gives = { λ d e. e ≡ ChipNotSound d };

    fn from(error: NotSound) -> RegisterError {
        RegisterError::NotSound(error)
    }
}

// Written out: a `From` that `#[from]` derives has no contract, and of the error that `?` then answers nothing is known.
impl From<NoSuchRegister> for RegisterError {
    ghost from_gives = { λ d e. e ≡ NumberTooLarge d };

    fn from(error: NoSuchRegister) -> RegisterError {
        RegisterError::NoSuchRegister(error)
    }
}

// The time at `at`.
pub fn now(chip: Ds3231, at: u64) -> Result<DateTime, NotSound>
    ensures { answered not_sound_row result ≡ now_answer chip at }
{
    checked(chip)?;
    Ok(clock::now(chip.timing.clock, at))
}

// What a register holds at `at`: the live time at 0x00 to 0x06.
pub fn register(chip: Ds3231, number: u8, at: u64) -> Result<u8, RegisterError>
    ensures { answered asked_row result ≡ register_answer chip number at }
{
    checked(chip)?;
    let register = Register::try_from(number)?;
    let time = timing::time_registers(chip.timing, at);
    Ok(registers::register_byte(time, chip.registers, register, at))
}

// How many reports were dropped because 256 were waiting.
pub fn dropped_diagnostics(chip: Ds3231) -> Result<u64, NotSound>
    ensures { answered not_sound_row result ≡ dropped_answer chip }
{
    checked(chip)?;
    Ok(chip.diagnostics.dropped)
}
