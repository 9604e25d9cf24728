// Dates and times of the years 2000 to 2199, their seconds since 2000-01-01T00:00:00, and weekdays.
// To read it: the contracts cite `gregorian`'s definitions at a `DateTime` (`specs/Dates.antt`) and number each refusal as
// document 01 does (`specs/Answers.antt`). `specs/Stated.antt` is what the crates above may name, and `proofs/Laws.antt` the
// laws that they go by; `specs/Text.antt` has the text of a time.
#![tactic(auto)]

ghost use Rattle.std.specs.Prelude.{◌≡◌, ◌+◌, ◌-◌, ◌%◌, ◌<◌, ◌≤◌, ◌⊎◌, ltb, Some};
ghost use Rattle.refusals.specs.Numbered.{accepted, and_then, answered, some_or};
ghost use Rattle.gregorian.specs.Calendar.{leap, month_length, date_of_day};
ghost use Rattle.gregorian.specs.DayNumbers.{day_number};
ghost use Rattle.gregorian.specs.Times.{checked_seconds};
ghost use Rattle.gregorian.specs.Nearest.{nearest_in};
ghost use Rattle.gregorian.specs.Ranges.{ValidDate};
ghost use Rattle.calendar.specs.Formula.{march_year, march_month};
ghost use Rattle.calendar.specs.AsTime.{date_time};
ghost use Rattle.calendar.specs.Dates.{InRange, checked, seconds_of, time_of, weekday_of, nearest};
ghost use Rattle.calendar.specs.Answers.{date_row};
ghost use Rattle.calendar.specs.Text.{date_time_text};

use gregorian::Date;
use refusals::Refusal;
use std::fmt;
use thiserror::Error;

const SECONDS_PER_MINUTE: u64 = 60;

const SECONDS_PER_HOUR: u64 = 3_600;

pub const SECONDS_PER_DAY: u64 = 86_400;

pub const DAYS_PER_WEEK: u64 = 7;

// The days from 2000-01-01 to 2200-01-01.
const DAYS_IN_RANGE: u64 = 73_049;

pub const SECONDS_IN_RANGE: u64 = DAYS_IN_RANGE * SECONDS_PER_DAY;

// The days from 0000-03-01 to 2000-01-01, the origin of the formulas below (Howard Hinnant's `days_from_civil`).
const DAYS_TO_2000: u64 = 730_425;

const DAYS_PER_400_YEARS: u64 = 146_097;

// 2000-01-01 was a Saturday, day 6 counting Monday as 1.
pub const WEEKDAY_OF_2000_OFFSET: u64 = 5;

// A date and a time of day. The valid ones are those from 2000-01-01T00:00:00 to 2199-12-31T23:59:59.
#[derive(Clone, Copy, Debug, PartialEq, Eq, PartialOrd, Ord, Hash)]
pub struct DateTime {
    pub year: u16,
    pub month: u8,
    pub day: u8,
    pub hour: u8,
    pub minute: u8,
    pub second: u8,
}

// `2026-01-01T00:00:00`.
impl fmt::Display for DateTime {
    ghost output = { λ t. Some (date_time_text t) };

    fn fmt<W: fmt::Write>(&self, f: &mut fmt::Formatter<W>) -> fmt::Result {
        write!(
            f,
            "{:04}-{:02}-{:02}T{:02}:{:02}:{:02}",
            self.year, self.month, self.day, self.hour, self.minute, self.second
        )
    }
}

// The first field of a time that is out of its range.
#[derive(Clone, Copy, Debug, PartialEq, Eq, Error)]
pub enum DateTimeError {
    #[error("the year {0} is outside the DS3231's range; give a year from 2000 to 2199, what its two-digit year and century bit hold")]
    Year(u16),
    #[error("there is no month {0}; give a month from 1 to 12")]
    Month(u8),
    #[error("{year}-{month:02} has no day {day}; give a day of that month")]
    Day { year: u16, month: u8, day: u8 },
    #[error("there is no hour {0}; give an hour from 0 to 23")]
    Hour(u8),
    #[error("there is no minute {0}; give a minute from 0 to 59")]
    Minute(u8),
    #[error("there is no second {0}; give a second from 0 to 59 (the DS3231 has no leap second)")]
    Second(u8),
}

impl Refusal for DateTimeError {
    ghost row = { date_row };

    fn number(&self) -> u8 {
        match self {
            DateTimeError::Year(_) => 1,
            DateTimeError::Month(_) => 2,
            DateTimeError::Day { .. } => 3,
            DateTimeError::Hour(_) => 4,
            DateTimeError::Minute(_) => 5,
            DateTimeError::Second(_) => 6,
        }
    }
}

impl DateTime {
    pub const FIRST_YEAR: u16 = 2000;

    pub const LAST_YEAR: u16 = 2199;

    // A valid time. It takes six numbers, as the Rust's does.
    pub fn new(
        year: u16,
        month: u8,
        day: u8,
        hour: u8,
        minute: u8,
        second: u8,
    ) -> Result<DateTime, DateTimeError>
        ensures { answered date_row result ≡ and_then (checked (date_time year month day hour minute second)) (accepted (date_time year month day hour minute second)) }
    {
        let time = DateTime {
            year,
            month,
            day,
            hour,
            minute,
            second,
        };
        time.validate()?;
        Ok(time)
    }

    // Whether every field is in its range; if not, the first that is not.
    pub fn validate(self) -> Result<(), DateTimeError>
        ensures { answered date_row result ≡ checked self }
    {
        if !(DateTime::FIRST_YEAR..=DateTime::LAST_YEAR).contains(&self.year) {
            return Err(DateTimeError::Year(self.year));
        }
        if !(1..=12).contains(&self.month) {
            return Err(DateTimeError::Month(self.month));
        }
        if self.day == 0 || is_past_month(self.year, self.month, self.day) {
            return Err(DateTimeError::Day {
                year: self.year,
                month: self.month,
                day: self.day,
            });
        }
        if self.hour > 23 {
            return Err(DateTimeError::Hour(self.hour));
        }
        if self.minute > 59 {
            return Err(DateTimeError::Minute(self.minute));
        }
        if self.second > 59 {
            return Err(DateTimeError::Second(self.second));
        }
        Ok(())
    }

    // The time `seconds` after 2000-01-01T00:00:00, none past 2199-12-31T23:59:59.
    #[tactic(auto, using(crate::proofs::Laws::seconds_refused))]
    pub fn from_seconds_since_2000(seconds: u64) -> Option<DateTime>
        ensures { some_or 8 result ≡ and_then (checked_seconds seconds) (accepted (time_of seconds)) }
    {
        if seconds >= SECONDS_IN_RANGE {
            return None;
        }
        Some(DateTime::from_wrapped_seconds(seconds))
    }

    // The time `seconds` after 2000-01-01T00:00:00, where 2000-01-01 follows 2199-12-31. Hour, minute and second fit
    // their fields: `try_from` in place of `as` would have an answer for numbers that do not come.
    pub fn from_wrapped_seconds(seconds: u64) -> DateTime
        ensures { result ≡ time_of (seconds % 6311433600) }
    {
        let in_range = seconds % SECONDS_IN_RANGE;
        let date = civil_from_days(in_range / SECONDS_PER_DAY);
        let in_day = in_range % SECONDS_PER_DAY;
        DateTime {
            year: date.year,
            month: date.month,
            day: date.day,
            hour: (in_day / SECONDS_PER_HOUR) as u8,
            minute: (in_day % SECONDS_PER_HOUR / SECONDS_PER_MINUTE) as u8,
            second: (in_day % SECONDS_PER_MINUTE) as u8,
        }
    }

    // The seconds since 2000-01-01T00:00:00 of a valid time.
    pub fn seconds_since_2000(self) -> Result<u64, DateTimeError>
        ensures { answered date_row result ≡ and_then (checked self) (accepted (seconds_of self)) }
    {
        self.validate()?;
        Ok(self.seconds_of_valid())
    }

    fn seconds_of_valid(self) -> u64
        requires { InRange self }
        ensures { result ≡ seconds_of self }
    {
        days_since_2000(self.year, self.month, self.day) * SECONDS_PER_DAY
            + u64::from(self.hour) * SECONDS_PER_HOUR
            + u64::from(self.minute) * SECONDS_PER_MINUTE
            + u64::from(self.second)
    }

    // The day of the week of a valid time, Monday 1 to Sunday 7.
    pub fn weekday(self) -> Result<u8, DateTimeError>
        ensures { answered date_row result ≡ and_then (checked self) (accepted (weekday_of self)) }
    {
        self.validate()?;
        let days = days_since_2000(self.year, self.month, self.day);
        Ok(weekday_of_day(days, WEEKDAY_OF_2000_OFFSET))
    }

    // The time whose every field is moved to the nearest value in its range, a day past the month's end to its last day.
    pub fn nearest(self) -> DateTime
        ensures { result ≡ nearest self }
    {
        let year = self.year.clamp(DateTime::FIRST_YEAR, DateTime::LAST_YEAR);
        let month = self.month.clamp(1, 12);
        DateTime {
            year,
            month,
            day: self.day.clamp(1, days_in_month(year, month)),
            hour: self.hour.min(23),
            minute: self.minute.min(59),
            second: self.second.min(59),
        }
    }

    // The seconds since 2000-01-01T00:00:00 of the nearest time.
    pub fn nearest_seconds(self) -> u64
        ensures { result ≡ seconds_of (nearest self) }
    {
        self.nearest().seconds_of_valid()
    }
}

fn is_leap(year: u16) -> bool
    ensures { result ≡ leap year }
{
    year % 4 == 0 && (year % 100 != 0 || year % 400 == 0)
}

// The days of a month. A month that is not 1 to 12 counts as one of 31 days.
pub fn days_in_month(year: u16, month: u8) -> u8
    ensures { result ≡ month_length year month }
{
    match month {
        2 if is_leap(year) => 29,
        2 => 28,
        4 | 6 | 9 | 11 => 30,
        _ => 31,
    }
}

// Whether a day is past the last of its month. No month ends before its 28th. Year, month and day are passed one by one, as
// `DateTime` has them: a `Date` would be made for this call and `days_since_2000` alone.
fn is_past_month(year: u16, month: u8, day: u8) -> bool
    ensures { result ≡ ltb (month_length year month) day }
{
    day > 28 && day > days_in_month(year, month)
}

// The days from 2000-01-01 to a date in the range, on a year that starts in March so that the leap day ends it.
fn days_since_2000(year: u16, month: u8, day: u8) -> u64
    requires { ValidDate year month day }
    ensures { result ≡ day_number year month day }
{
    // The March year of January and February is the year before their own.
    let before = u64::from(month <= 2);
    march_days(
        u64::from(year) - before,
        u64::from(month) + 12 * before - 3,
        u64::from(day),
    )
}

// The days from 2000-01-01 to a day of a month, 0 for March to 11 for February, of a year that starts in March.
fn march_days(year: u64, month: u64, day: u64) -> u64
    requires { (year ≤ 2199) × (month ≤ 11) × (1 ≤ day) × (day ≤ 31) × (730425 ≤ march_year year + march_month month + (day - 1)) }
    ensures { result + 730425 ≡ march_year year + march_month month + (day - 1) }
{
    let day_of_year = (153 * month + 2) / 5 + day - 1;
    let days = year * 365 + year / 4 - year / 100 + year / 400 + day_of_year;
    days - DAYS_TO_2000
}

// The date `days` after 2000-01-01 (Hinnant's `civil_from_days`). Year, month and day fit their fields: `try_from` in place of
// `as` would have an answer for numbers that do not come.
fn civil_from_days(days: u64) -> Date
    requires { days < 73049 }
    ensures { result ≡ date_of_day days }
{
    let since_origin = days + DAYS_TO_2000;
    let era = since_origin / DAYS_PER_400_YEARS;
    let day_of_era = since_origin % DAYS_PER_400_YEARS;
    let year_of_era = (day_of_era - day_of_era / 1_460 + day_of_era / 36_524 - day_of_era / 146_096)
        / 365;
    let day_of_year = day_of_era - (365 * year_of_era + year_of_era / 4 - year_of_era / 100);
    let march_month = (5 * day_of_year + 2) / 153;
    let day = day_of_year - (153 * march_month + 2) / 5 + 1;
    if march_month < 10 {
        Date {
            year: (year_of_era + era * 400) as u16,
            month: (march_month + 3) as u8,
            day: day as u8,
        }
    } else {
        Date {
            year: (year_of_era + era * 400 + 1) as u16,
            month: (march_month - 9) as u8,
            day: day as u8,
        }
    }
}

// The day of the week, 1 to 7, of the day `days` after 2000-01-01, for a counter at `offset`. It is at most 6 before 1 is
// added, and fits: `try_from` in place of `as` would have an answer for numbers that do not come.
pub fn weekday_of_day(days: u64, offset: u64) -> u8
    ensures { result ≡ (days + offset) % 7 + 1 }
{
    ((days % DAYS_PER_WEEK + offset % DAYS_PER_WEEK) % DAYS_PER_WEEK) as u8 + 1
}
