// The text of answers. What cannot be written is lost.
use calendar::{DateTime, DateTimeError};
use diagnostics::LentError;
use ds3231::Reply;
use ds3231_chip::Ds3231ConfigError;
use refusals::Refusal;
use std::fmt::Display;

pub(crate) fn bytes(rt: &impl Print, text: &[u8]) {
    let _ = rt.write_all(text);
}

pub(crate) fn line_end(rt: &impl Print) {
    let _ = println!(rt; "");
}

// The line before a list.
pub(crate) fn list(rt: &impl Print, number: u64) {
    let _ = println!(rt; "list,{number}");
}

pub(crate) fn ok(rt: &impl Print) {
    let _ = print!(rt; "ok");
}

pub(crate) fn decimal(rt: &impl Print, number: impl Display + Drop) {
    let _ = rt.print(number);
}

// Two hexadecimal digits.
pub(crate) fn hex(rt: &impl Print, byte: u8) {
    let _ = print!(rt; "{byte:02X}");
}

// `2026-01-01T00:00:00`.
pub(crate) fn time(rt: &impl Print, time: DateTime) {
    let _ = rt.print(time);
}

// An answer, or its refusal.
pub(crate) fn answer<T, E: Refusal + Drop, F: FnOnce(T) + Drop>(
    rt: &impl Print,
    answer: Result<T, E>,
    print: F,
)
    requires { (value : T) → F.pre print value }
{
    match answer {
        Ok(value) => print(value),
        Err(error) => refused(rt, &error),
    }
}

// The answer to a bus call.
pub(crate) fn reply(rt: &impl Print, reply: Result<Reply, LentError>) {
    answer(rt, reply, |reply| hex(rt, u8::from(reply)));
}

// A refusal: `refused,8`.
pub(crate) fn refused(rt: &impl Print, error: &impl Refusal) {
    refused_by_number(rt, error.number());
}

pub(crate) fn refused_by_number(rt: &impl Print, number: u8) {
    let _ = print!(rt; "refused,{number}");
}

// A refused time: `refused,3,2100,2,29`.
pub(crate) fn error(rt: &impl Print, error: DateTimeError) {
    refused(rt, &error);
    values(rt, error);
}

fn values(rt: &impl Print, error: DateTimeError) {
    let _ = match error {
        DateTimeError::Year(year) => print!(rt; ",{year}"),
        DateTimeError::Month(month) => print!(rt; ",{month}"),
        DateTimeError::Day { year, month, day } => print!(rt; ",{year},{month},{day}"),
        DateTimeError::Hour(hour) => print!(rt; ",{hour}"),
        DateTimeError::Minute(minute) => print!(rt; ",{minute}"),
        DateTimeError::Second(second) => print!(rt; ",{second}"),
    };
}

// A refused power-on: that of its time, `refused,7,-41` for a temperature, or `refused,22`.
pub(crate) fn not_on(rt: &impl Print, error: Ds3231ConfigError) {
    refused(rt, &error);
    match error {
        Ds3231ConfigError::Start(error) => values(rt, error),
        Ds3231ConfigError::Temperature(quarters) => {
            let _ = print!(rt; ",{quarters}");
        }
        Ds3231ConfigError::ConversionTime => {}
    }
}
