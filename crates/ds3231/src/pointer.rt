// The register map: the number of a register, the register of a number, and the register after another.
ghost use Rattle.std.specs.Prelude.{◌≡◌, ok_or};
ghost use Rattle.ds3231.specs.Map.{number_of, named, no_register, register_row};
ghost use Rattle.ds3231.specs.Changed.{next_pointer};

use crate::Register;
use refusals::Refusal;
use thiserror::Error;

// A number above 0x12.
#[derive(Clone, Copy, Debug, PartialEq, Eq, Error)]
#[error("there is no such register; the last is 18")]
pub struct NoSuchRegister;

impl Refusal for NoSuchRegister {
    ghost row = { register_row };

    fn number(&self) -> u8 {
        9
    }
}

// The register of a number, an arm for each: in a constant array a number would stand by its place alone.
impl TryFrom<u8> for Register {
    type Error = NoSuchRegister;

    ghost try_from_gives = { λ n r. r ≡ ok_or (named n) no_register };

    fn try_from(number: u8) -> Result<Register, NoSuchRegister> {
        match number {
            0x00 => Ok(Register::Seconds),
            0x01 => Ok(Register::Minutes),
            0x02 => Ok(Register::Hours),
            0x03 => Ok(Register::Weekday),
            0x04 => Ok(Register::Date),
            0x05 => Ok(Register::Month),
            0x06 => Ok(Register::Year),
            0x07 => Ok(Register::Alarm1Seconds),
            0x08 => Ok(Register::Alarm1Minutes),
            0x09 => Ok(Register::Alarm1Hours),
            0x0A => Ok(Register::Alarm1Day),
            0x0B => Ok(Register::Alarm2Minutes),
            0x0C => Ok(Register::Alarm2Hours),
            0x0D => Ok(Register::Alarm2Day),
            0x0E => Ok(Register::Control),
            0x0F => Ok(Register::Status),
            0x10 => Ok(Register::Aging),
            0x11 => Ok(Register::TemperatureMsb),
            0x12 => Ok(Register::TemperatureLsb),
            _ => Err(NoSuchRegister),
        }
    }
}

impl Register {
    // Its number, which `as` alone takes of an enum.
    pub fn number(self) -> u8
        ensures { result ≡ number_of self }
    {
        self as u8
    }

    // The register of the next number, and after the last the first.
    pub fn next(self) -> Register
        ensures { result ≡ next_pointer self }
    {
        Register::try_from(self.number() + 1).unwrap_or(Register::Seconds)
    }
}
