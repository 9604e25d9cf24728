// The byte of a register, and what a byte written makes of the registers outside the time, 0x07 to 0x12.
ghost use Rattle.std.specs.Prelude.{◌≡◌, if◌then◌else◌};
ghost use Rattle.ds3231.specs.Registers.{converting, temperature_high, temperature_low, enables_output, starts_conversion, byte_at, control_written, registers_written};

use ds3231::{Register, Registers};
pub use fields::{DATE, SECONDS, YEAR};

// Numbers of registers after the time, which `as` alone takes of an enum: `write_register` takes every number.
const ALARM_FIRST: u8 = Register::Alarm1Seconds as u8;

const ALARM_LAST: u8 = Register::Alarm2Day as u8;

pub const CONTROL: u8 = Register::Control as u8;

const STATUS: u8 = Register::Status as u8;

const AGING: u8 = Register::Aging as u8;

// For a caller, as `CONTROL` and the three of the time: `register` of `ds3231_chip` takes a number.
pub const TEMPERATURE_MSB: u8 = Register::TemperatureMsb as u8;

// Control.
pub const CONV: u8 = 0x20;

const INTCN: u8 = 0x04;

const A2IE: u8 = 0x02;

const A1IE: u8 = 0x01;

// Status.
pub const OSF: u8 = 0x80;

pub const EN32KHZ: u8 = 0x08;

const BSY: u8 = 0x04;

const A2F: u8 = 0x02;

const A1F: u8 = 0x01;

// The status bits that a write can only clear.
const CLEAR_ONLY: u8 = OSF | A2F | A1F;

// The byte of a register, from the seven bytes of the time registers, live or latched.
pub fn register_byte(time: [u8; 7], registers: Registers, register: Register, at: u64) -> u8
    ensures { result ≡ byte_at time registers register at }
{
    let number = usize::from(register.number());
    let converting = converting(registers, at);
    let alarms = registers.alarms;
    let quarters = registers.temperature_quarters;
    match register {
        Register::Seconds
        | Register::Minutes
        | Register::Hours
        | Register::Weekday
        | Register::Date
        | Register::Month
        | Register::Year => time[number],
        Register::Alarm1Seconds
        | Register::Alarm1Minutes
        | Register::Alarm1Hours
        | Register::Alarm1Day
        | Register::Alarm2Minutes
        | Register::Alarm2Hours
        | Register::Alarm2Day => alarms[number - 7],
        Register::Control => registers.control | bits_if(converting, CONV),
        Register::Status => registers.status | bits_if(converting, BSY),
        Register::Aging => registers.aging,
        Register::TemperatureMsb => temperature_high(quarters),
        Register::TemperatureLsb => temperature_low(quarters),
    }
}

// The bits of a mask where they are set, else none. A bit that has a condition of its own, as in `fields`, has its `if` there.
fn bits_if(set: bool, mask: u8) -> u8
    ensures { result ≡ (if set then mask else 0) }
{
    if set { mask } else { 0 }
}

// The whole degrees of a temperature, rounded down, in two's complement.
fn temperature_high(quarters: i16) -> u8
    ensures { result ≡ temperature_high quarters }
{
    (quarters >> 2).to_le_bytes()[0]
}

// The quarters above the whole degrees, in bits 7 and 6.
fn temperature_low(quarters: i16) -> u8
    ensures { result ≡ temperature_low quarters }
{
    quarters.to_le_bytes()[0] % 4 * 64
}

// A conversion runs at every instant below its end.
fn converting(registers: Registers, at: u64) -> bool
    ensures { result ≡ converting registers at }
{
    registers.conversion_end.is_some_and(|end| at < end)
}

// A byte written to a register. One of the time or of the temperature changes nothing here. The register is a number: every
// number has an answer.
pub fn write_register(registers: Registers, register: u8, byte: u8, at: u64) -> Registers
    ensures { result ≡ registers_written register byte at registers }
{
    let mut registers = registers;
    match register {
        ALARM_FIRST..=ALARM_LAST => {
            let slot = usize::from(register - ALARM_FIRST);
            registers.alarms[slot] = byte;
            registers
        }
        CONTROL => write_control(registers, byte, at),
        STATUS => {
            // OSF, A2F and A1F can only be cleared; EN32kHz takes the bit; BSY is read only.
            registers.status = (registers.status & byte & CLEAR_ONLY) | (byte & EN32KHZ);
            registers
        }
        AGING => {
            registers.aging = byte;
            registers
        }
        _ => registers,
    }
}

// A byte written to control.
fn write_control(registers: Registers, byte: u8, at: u64) -> Registers
    ensures { result ≡ control_written byte at registers }
{
    let mut registers = registers;
    registers.conversion_end = conversion_end(registers, byte, at);
    registers.int_sqw_reported = enables_output(byte) | registers.int_sqw_reported;
    registers.control = byte & !CONV;
    registers
}

// The end of the last conversion after a byte written to control. A conversion that starts keeps CONV and BSY set for the chip's
// conversion time, and ends at the last instant at most.
fn conversion_end(registers: Registers, byte: u8, at: u64) -> Option<u64>
    ensures { result ≡ (control_written byte at registers).conversion_end }
{
    if starts_conversion(registers, byte, at) {
        Some(at.saturating_add(registers.conversion_nanos))
    } else {
        registers.conversion_end
    }
}

// CONV starts a conversion where none runs.
fn starts_conversion(registers: Registers, byte: u8, at: u64) -> bool
    ensures { result ≡ starts_conversion byte at registers }
{
    (byte & CONV != 0) & !converting(registers, at)
}

// A control byte that enables the INT/SQW output, which is not modelled: the square wave, or an alarm's interrupt.
pub fn enables_output(byte: u8) -> bool
    ensures { result ≡ enables_output byte }
{
    let square_wave = byte & INTCN == 0;
    square_wave | (byte & (A1IE | A2IE) != 0)
}
