// The two calls on dates for a host in C or Rust, on numbers: the date of a number of seconds since 2000-01-01T00:00:00,
// and back. The calendar's calls do the work; this crate passes them numbers and packs what they answer into one.
//
// To read an answer, divide it by 2^56. Where that gives 0 it is the date or the seconds; else it is the number of the
// refusal, 1 to 6 or 8. `specs/Packed.antt` has the numbers that the contracts cite. That an accepted answer is below
// 2^56, and that no two dates are packed alike, is proved in `proofs/Laws.antt`.
#![tactic(auto)]

ghost use Rattle.std.specs.Prelude.{◌≡◌, ◌*◌, ◌^◌};
ghost use Rattle.refusals.specs.Numbered.{accepted, and_then};
ghost use Rattle.calendar.specs.Stated.{date_time, checked_seconds, checked, time_of, seconds_of};
ghost use Rattle.dates_host.specs.Packed.{packed_date, host_date, host_seconds};

use calendar::DateTime;
use refusals::Refusal;

// The date of a number of seconds since 2000, as one number: year × 2^40 + month × 2^32 + day × 2^24 + hour × 2^16 +
// minute × 2^8 + second. A refusal is its number times 2^56: one number is what the C interface has.
pub fn clock_date_from_seconds(seconds: u64) -> u64
    ensures { result ≡ host_date (and_then (checked_seconds seconds) (accepted (time_of seconds))) }
{
    match DateTime::from_seconds_since_2000(seconds) {
        Some(date) => packed(date),
        // The calls answer as the Rust's do, this one an `Option`: its one refusal has no error to ask for its number.
        None => refused(8),
    }
}

// The seconds since 2000 of a date. A refusal is its number times 2^56: numbers are what the C interface has.
pub fn clock_seconds_from_date(
    year: u16,
    month: u8,
    day: u8,
    hour: u8,
    minute: u8,
    second: u8,
) -> u64
    ensures { result ≡ host_seconds (and_then (checked (date_time year month day hour minute second)) (accepted (seconds_of (date_time year month day hour minute second)))) }
{
    let date = DateTime {
        year,
        month,
        day,
        hour,
        minute,
        second,
    };
    match date.seconds_since_2000() {
        Ok(seconds) => seconds,
        Err(error) => refused(error.number()),
    }
}

// A date as one number: the highest byte is 0, the next two are the year, and each other field has one.
fn packed(date: DateTime) -> u64
    ensures { result ≡ packed_date date }
{
    let [year_high, year_low] = date.year.to_be_bytes();
    u64::from_be_bytes([
        0,
        year_high,
        year_low,
        date.month,
        date.day,
        date.hour,
        date.minute,
        date.second,
    ])
}

// A refusal: its number is the highest byte.
fn refused(number: u8) -> u64
    ensures { result ≡ number * 2 ^ 56 }
{
    u64::from_be_bytes([number, 0, 0, 0, 0, 0, 0, 0])
}
