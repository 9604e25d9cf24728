// The bytes of the time registers 0x00 to 0x06 and the fields that they stand for.
// To read it: `specs/Table.antt` says which byte is defined, which field it sets, and the seven bytes of a time;
// `specs/Bytes.antt` has the byte of a field, and `proofs/Laws.antt` that a byte and its field go both ways.
#![tactic(auto)]

ghost use Rattle.std.specs.Prelude.{◌≡◌, ◌%◌, leb, eqb};
ghost use Rattle.std.specs.Prelude.{if◌then◌else◌};
ghost use Rattle.fields.specs.Bytes.{to_digits, hour_byte};
ghost use Rattle.fields.specs.Table.{bit, meaning, time_bytes};
ghost use Rattle.fields.specs.Answers.{decoded_meaning, of_digits, of_digits_within};

use calendar::DateTime;

// The register map of the time, as numbers: a caller may ask for any, and the enum of the registers is of a crate above.
pub const SECONDS: u8 = 0x00;

const MINUTES: u8 = 0x01;

const HOURS: u8 = 0x02;

const WEEKDAY: u8 = 0x03;

pub const DATE: u8 = 0x04;

const MONTH: u8 = 0x05;

pub const YEAR: u8 = 0x06;

// The hours register.
const TWELVE_HOUR: u8 = 0x40;

const PM: u8 = 0x20;

const HOURS_PER_HALF_DAY: u8 = 12;

// The month register.
const CENTURY: u8 = 0x80;

const MONTH_FIELD: u8 = 0x1F;

pub const YEARS_PER_CENTURY: u16 = 100;

// A field of the time, decoded from a byte written to a time register.
#[derive(Clone, Copy, Debug, PartialEq, Eq)]
pub enum Field {
    Second(u8),
    Minute(u8),
    Hour { hour: u8, twelve_hour: bool },
    Weekday(u8),
    Day(u8),
    Month { month: u8, century: bool },
    Year(u8),
}

// The bytes of the seven time registers, in 12-hour or 24-hour mode.
pub fn time_bytes(time: DateTime, weekday: u8, twelve_hour: bool) -> [u8; 7]
    ensures { result ≡ time_bytes time weekday twelve_hour }
{
    let century = century_bit(time.year);
    // It is below 100 and fits: `try_from` in place of `as` would have an answer for numbers that do not come.
    let two_digits = (time.year % YEARS_PER_CENTURY) as u8;
    [
        to_bcd(time.second),
        to_bcd(time.minute),
        encode_hour(time.hour, twelve_hour),
        weekday,
        to_bcd(time.day),
        to_bcd(time.month) | century,
        to_bcd(two_digits),
    ]
}

// Bit 7 of the month register: set from 2100 on. Each bit below is a condition of its own: one function for all would take both as
// parameters, and be the `if`.
fn century_bit(year: u16) -> u8
    ensures { result ≡ (if leb 2100 year then 0x80 else 0) }
{
    if year >= DateTime::FIRST_YEAR + YEARS_PER_CENTURY {
        CENTURY
    } else {
        0
    }
}

// The hours byte of an hour.
fn encode_hour(hour: u8, twelve_hour: bool) -> u8
    ensures { result ≡ hour_byte hour twelve_hour }
{
    if !twelve_hour {
        return to_bcd(hour);
    }
    TWELVE_HOUR | pm_bit(hour) | to_bcd(on_dial(hour))
}

// Bit 5 of the hours register in 12-hour mode: set from hour 12 on.
fn pm_bit(hour: u8) -> u8
    ensures { result ≡ (if leb 12 hour then 0x20 else 0) }
{
    if hour >= HOURS_PER_HALF_DAY { PM } else { 0 }
}

// The hour on a dial of 1 to 12.
fn on_dial(hour: u8) -> u8
    ensures { result ≡ (if eqb (hour % 12) 0 then 12 else hour % 12) }
{
    match hour % HOURS_PER_HALF_DAY {
        0 => HOURS_PER_HALF_DAY,
        other => other,
    }
}

// The field that a byte written to a time register sets, none where the byte is undefined: a digit is above 9, a bit is set
// that must be 0, or the value is out of the field's range. The register is a number: every number has an answer.
pub fn decode(register: u8, byte: u8) -> Option<Field>
    ensures { decoded_meaning result ≡ meaning register byte }
{
    match register {
        SECONDS => from_bcd_within(byte, 0, 59).map(Field::Second),
        MINUTES => from_bcd_within(byte, 0, 59).map(Field::Minute),
        HOURS => decode_hour(byte),
        WEEKDAY => from_bcd_within(byte, 1, 7).map(Field::Weekday),
        DATE => from_bcd_within(byte, 1, 31).map(Field::Day),
        MONTH => decode_month(byte),
        YEAR => from_bcd_within(byte, 0, 99).map(Field::Year),
        _ => None,
    }
}

// The hours register: bit 6 set is 12-hour mode, where bit 5 is PM and the hour runs from 1 to 12; in 24-hour mode it runs from 0 to 23.
fn decode_hour(byte: u8) -> Option<Field>
    ensures { decoded_meaning result ≡ meaning 2 byte }
{
    if byte & TWELVE_HOUR == 0 {
        let hour = from_bcd_within(byte, 0, 23)?;
        return Some(Field::Hour {
            hour,
            twelve_hour: false,
        });
    }
    let on_dial = from_bcd_within(byte & !(TWELVE_HOUR | PM), 1, 12)?;
    Some(Field::Hour {
        hour: on_dial % HOURS_PER_HALF_DAY + afternoon(byte),
        twelve_hour: true,
    })
}

// The 12 hours that PM adds to an hour on the dial, by an hours byte.
fn afternoon(byte: u8) -> u8
    ensures { result ≡ (if bit 5 byte then 12 else 0) }
{
    if byte & PM == 0 {
        0
    } else {
        HOURS_PER_HALF_DAY
    }
}

// The month register: bit 7 is the century, bits 6 and 5 must be 0.
fn decode_month(byte: u8) -> Option<Field>
    ensures { decoded_meaning result ≡ meaning 5 byte }
{
    if byte & !(CENTURY | MONTH_FIELD) != 0 {
        return None;
    }
    let month = from_bcd_within(byte & MONTH_FIELD, 1, 12)?;
    Some(Field::Month {
        month,
        century: byte & CENTURY != 0,
    })
}

// The two digits of a value; of one above 159 those that eight bits keep.
pub fn to_bcd(value: u8) -> u8
    ensures { result ≡ to_digits value }
{
    value / 10 % 16 * 16 + value % 10
}

// The value of two digits, none where a digit is above 9.
fn from_bcd(byte: u8) -> Option<u8>
    ensures { result ≡ of_digits byte }
{
    let tens = byte / 16;
    let ones = byte % 16;
    if tens > 9 || ones > 9 {
        return None;
    }
    Some(tens * 10 + ones)
}

// The value of two digits, none where a digit is above 9 or the value is not from `low` to `high`.
fn from_bcd_within(byte: u8, low: u8, high: u8) -> Option<u8>
    ensures { result ≡ of_digits_within low high byte }
{
    from_bcd(byte).filter(|value| (low..=high).contains(value))
}
