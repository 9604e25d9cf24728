// The calls of `DateTime`.
use crate::text;
use calendar::{DateTime, DateTimeError};

pub(crate) fn from_seconds(rt: &impl Print, seconds: u64) {
    match DateTime::from_seconds_since_2000(seconds) {
        Some(time) => text::time(rt, time),
        // The calls answer as the Rust's do, this one an `Option`: its one refusal has no error to ask for its number.
        None => text::refused_by_number(rt, 8),
    }
}

// An answer of a call on a date, or its refusal, which has values: that of `text::answer` has a number alone.
pub(crate) fn answer<T, F: FnOnce(T) + Drop>(
    rt: &impl Print,
    answer: Result<T, DateTimeError>,
    print: F,
)
    requires { (value : T) → F.pre print value }
{
    match answer {
        Ok(value) => print(value),
        Err(error) => text::error(rt, error),
    }
}
