// A record of sixteen bytes, and the call that stands in it.
use calendar::DateTime;
use ds3231::Ds3231Config;
use script_check::{RECORD, instant};

// A recorded call, with what it is passed. `at` is its instant.
pub(crate) enum Call {
    Start { address: u8, read: bool, at: u64 },
    Write { byte: u8, at: u64 },
    Read { acknowledged: bool, at: u64 },
    Stop { at: u64 },
    PowerOn(Ds3231Config),
    Register { number: u8, at: u64 },
    Now { at: u64 },
    Dropped,
    Take,
    Validate(DateTime),
    FromSeconds(u64),
    Seconds(DateTime),
    Weekday(DateTime),
}

// By the kinds of vectors/README.md. A kind above the last is a weekday. `at` is the instant or the seconds.
impl From<[u8; RECORD]> for Call {
    fn from(record: [u8; RECORD]) -> Call {
        let at = instant(record);
        match record[8] {
            0 => Call::Start {
                address: record[9],
                read: record[10] == 1,
                at,
            },
            1 => Call::Write {
                byte: record[9],
                at,
            },
            2 => Call::Read {
                acknowledged: record[9] == 1,
                at,
            },
            3 => Call::Stop { at },
            4 => Call::PowerOn(config(record)),
            5 => Call::Register {
                number: record[9],
                at,
            },
            6 => Call::Now { at },
            7 => Call::Dropped,
            8 => Call::Take,
            9 => Call::Validate(time(record)),
            10 => Call::FromSeconds(at),
            11 => Call::Seconds(time(record)),
            _ => Call::Weekday(time(record)),
        }
    }
}

fn time(record: [u8; RECORD]) -> DateTime {
    let [year_low, year_high, month, day, hour, minute, second, ..] = record;
    DateTime {
        year: u16::from_le_bytes([year_low, year_high]),
        month,
        day,
        hour,
        minute,
        second,
    }
}

fn config(record: [u8; RECORD]) -> Ds3231Config {
    Ds3231Config {
        start: time(record),
        oscillator_stopped: record[7] == 1,
        temperature_quarters: i16::from_le_bytes([record[10], record[11]]),
        conversion_nanos: conversion_nanos(record),
    }
}

// 0 stands for that of a script's power-on: the Rust's power-on takes no conversion time.
fn conversion_nanos(record: [u8; RECORD]) -> u64 {
    match u32::from_le_bytes([record[12], record[13], record[14], record[15]]) {
        0 => Ds3231Config::default().conversion_nanos,
        nanos => u64::from(nanos),
    }
}
