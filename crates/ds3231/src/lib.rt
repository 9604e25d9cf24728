// The DS3231 real-time clock: its structs, the bus events and their replies, and the register map (module `pointer`). What its
// calls mean, document 01's model, the exact time and the report total are definitions and theorems.
// To read it: of specs/ `Numbers`, `Map`, `Clock`, `Timing`, `Registers`, `Calls`, then `Model`, `Exact` and `Total`; `Changed`
// has the parts that chip and model say each for itself. docs/EXACT-TIME.md says the theorem in plain words; its proof is
// `proofs/ExactTime.antt`, and `proofs/Witness.antt` shows that it is not empty. `EightBits` is the claim of the weekday offset,
// `ConversionTime` that of the conversion time, `Midnights` that of the weekday, and `SetAndRead` that what was set is what is read.
#![tactic(auto)]

ghost use Rattle.std.specs.Prelude.{◌≡◌};
ghost use Rattle.ds3231.specs.Calls.{default_config, reply_byte};

use calendar::DateTime;
use diagnostics::Diagnostics;

mod pointer;

pub use pointer::NoSuchRegister;

// The running clock, as it was last set: the seconds since 2000 at an instant at which a second of the clock began, and the offset,
// at most 6, that gives the weekday of that day from its number. From there the weekday steps at each midnight, over the end of 2199 too.
#[derive(Clone, Copy, Debug, PartialEq, Eq)]
pub struct Clock {
    pub base_seconds: u64,
    pub base_at: u64,
    pub weekday_offset: u8,
}

// The time registers written in the transaction under way, applied when it ends. Its day may not fit its month until then.
#[derive(Clone, Copy, Debug)]
pub struct PendingTime {
    pub time: DateTime,
    pub weekday: u8,
}

// The register map, 0x00 to 0x12. A pointer is one of these, so that a chip has no pointer past the last.
#[derive(Clone, Copy, Debug, PartialEq, Eq)]
pub enum Register {
    Seconds = 0x00,
    Minutes = 0x01,
    Hours = 0x02,
    Weekday = 0x03,
    Date = 0x04,
    Month = 0x05,
    Year = 0x06,
    Alarm1Seconds = 0x07,
    Alarm1Minutes = 0x08,
    Alarm1Hours = 0x09,
    Alarm1Day = 0x0A,
    Alarm2Minutes = 0x0B,
    Alarm2Hours = 0x0C,
    Alarm2Day = 0x0D,
    Control = 0x0E,
    Status = 0x0F,
    Aging = 0x10,
    TemperatureMsb = 0x11,
    TemperatureLsb = 0x12,
}

// Where the chip stands in the transaction on the bus.
#[derive(Clone, Copy, Debug, PartialEq, Eq)]
pub enum Phase {
    // Not addressed.
    Released,
    // Addressed for a write, waiting for the register pointer.
    Pointer,
    // Addressed for a write, the pointer set.
    Writing,
    // Addressed for a read.
    Reading,
    // Addressed for a write whose pointer named no register: the bytes that follow are dropped.
    Ignoring,
}

// What keeps the time and follows the bus. A second of the pending time begins at the instant `pending_at`, which counts only
// where there is one: with it inside the pending time, setting the time is slower than the Rust.
#[derive(Clone, Copy, Debug)]
pub struct Timing {
    pub clock: Clock,
    pub pending_at: u64,
    pub latched: [u8; 7],
    pub twelve_hour: bool,
    pub pending: Option<PendingTime>,
    pub phase: Phase,
    pub pointer: Register,
}

// The registers outside the time: control without bit 5 and status without bit 2, which read set while a conversion runs; how long
// each conversion lasts, and the end of the last one. With the end before the time, a run is slower.
#[derive(Clone, Copy, Debug)]
pub struct Registers {
    pub alarms: [u8; 7],
    pub control: u8,
    pub status: u8,
    pub aging: u8,
    pub temperature_quarters: i16,
    pub int_sqw_reported: bool,
    pub conversion_nanos: u64,
    pub conversion_end: Option<u64>,
}

// The DS3231 on an I2C bus, in 112 bytes: the fields of a struct lie in memory in the order of the source, which leaves few gaps.
// Its diagnostics wait in a store that each call is lent.
#[derive(Clone, Copy, Debug)]
pub struct Ds3231 {
    pub timing: Timing,
    pub registers: Registers,
    pub diagnostics: Diagnostics,
}

// What the clock holds at power-on. Its conversion time is that of the chip's lot: 125,000,000 to 200,000,000 nanoseconds.
#[derive(Clone, Copy, Debug, PartialEq, Eq)]
pub struct Ds3231Config {
    pub start: DateTime,
    pub oscillator_stopped: bool,
    pub temperature_quarters: i16,
    pub conversion_nanos: u64,
}

const NANOS_PER_MILLISECOND: u64 = 1_000_000;

// The conversion time of a script's power-on.
const CONVERSION_NANOS: u64 = 200 * NANOS_PER_MILLISECOND;

// A script's power-on: 2026-01-01T00:00:00, oscillator not stopped, 100 quarters, conversions of 200 ms.
impl Default for Ds3231Config {
    ghost is_default = { λ f. f ≡ default_config };

    fn default() -> Ds3231Config {
        let start = DateTime {
            year: 2026,
            month: 1,
            day: 1,
            hour: 0,
            minute: 0,
            second: 0,
        };
        Ds3231Config {
            start,
            oscillator_stopped: false,
            temperature_quarters: 100,
            conversion_nanos: CONVERSION_NANOS,
        }
    }
}

// A bus event, with its instant.
#[derive(Clone, Copy, Debug, PartialEq, Eq)]
pub enum Event {
    Start { address: u8, read: bool, at: u64 },
    Write { byte: u8, at: u64 },
    Read { acknowledged: bool, at: u64 },
    Stop { at: u64 },
}

// What a bus event answers: START and WRITE an acknowledge, READ a byte.
#[derive(Clone, Copy, Debug, PartialEq, Eq)]
pub enum Reply {
    Acknowledge(bool),
    Byte(u8),
    Done,
}

// START and WRITE 1 or 0, READ the byte, STOP 0.
impl From<Reply> for u8 {
    ghost from_gives = { λ reply r. r ≡ reply_byte reply };

    fn from(reply: Reply) -> u8 {
        match reply {
            Reply::Acknowledge(acknowledged) => u8::from(acknowledged),
            Reply::Byte(byte) => byte,
            Reply::Done => 0,
        }
    }
}
