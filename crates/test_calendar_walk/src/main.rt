// Walks the 73,049 days of the years 2000 to 2199 by both conversions, at 12:34:56 of each day, and the 2,400 months,
// and prints for each century the first and the last day with its weekday, and checksums.
//
// The file `stdout` comes from another calendar, the modules `datetime` and `calendar` of Python 3.11: for day n,
// t = datetime(2000, 1, 1, 12, 34, 56) + timedelta(n), its fields, t.isoweekday() and
// (t - datetime(2000, 1, 1)).total_seconds(), and for a month calendar.monthrange(year, month)[1], each folded into the
// checksum by (sum * 31 + value) % 4294967291, from 0 at each century's start.
#![tactic(auto)]

use calendar::{DateTime, SECONDS_PER_DAY, days_in_month};
use std::io;

const MODULUS: u64 = 4_294_967_291;

// What a refusal counts as in a checksum, where Python has none.
const REFUSED: u64 = 4_294_967_290;

fn folded(sum: u64, value: u64) -> u64 {
    (sum % MODULUS * 31 + value % MODULUS) % MODULUS
}

fn weekday_of(t: DateTime) -> u64 {
    t.weekday().map_or(REFUSED, u64::from)
}

fn seconds_of(t: DateTime) -> u64 {
    t.seconds_since_2000().unwrap_or(REFUSED)
}

fn folded_day(sum: u64, seconds: u64) -> u64 {
    match DateTime::from_seconds_since_2000(seconds) {
        Some(t) => {
            let values = [
                u64::from(t.year),
                u64::from(t.month),
                u64::from(t.day),
                u64::from(t.hour),
                u64::from(t.minute),
                u64::from(t.second),
                weekday_of(t),
                seconds_of(t),
            ];
            values.iter().fold(sum, |sum, value| folded(sum, *value))
        }
        None => folded(sum, REFUSED),
    }
}

fn days_checksum(first_day: u32, last_day: u32) -> u64 {
    let mut sum = 0;
    for day in first_day..=last_day {
        sum = folded_day(sum, u64::from(day) * SECONDS_PER_DAY + 45_296);
    }
    sum
}

fn months_checksum(first_year: u16, last_year: u16) -> u64 {
    let mut sum = 0;
    for year in first_year..=last_year {
        sum = folded_year(sum, year);
    }
    sum
}

fn folded_year(sum: u64, year: u16) -> u64 {
    let mut months = sum;
    for month in 1..=12u8 {
        months = folded(months, u64::from(days_in_month(year, month)));
    }
    months
}

fn print_day(rt: &impl Print, day: u32) -> io::Result<()> {
    match DateTime::from_seconds_since_2000(u64::from(day) * SECONDS_PER_DAY) {
        Some(t) => {
            let year = t.year;
            let month = t.month;
            let day = t.day;
            let weekday = weekday_of(t);
            print!(rt; "{year}-{month}-{day} weekday {weekday}")
        }
        None => print!(rt; "refused"),
    }
}

fn print_century(
    rt: &impl Print,
    first_year: u16,
    last_year: u16,
    first_day: u32,
    last_day: u32,
) -> io::Result<()> {
    print_day(rt, first_day)?;
    print!(rt; " to ")?;
    print_day(rt, last_day)?;
    let days = days_checksum(first_day, last_day);
    let months = months_checksum(first_year, last_year);
    println!(rt; ": days {days}, months {months}")
}

fn main(rt: HostRuntime) -> io::Result<()> {
    print_century(&rt, 2000, 2099, 0, 36_524)?;
    print_century(&rt, 2100, 2199, 36_525, 73_048)
}
