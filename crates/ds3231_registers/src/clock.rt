// The running clock: what it shows at an instant, and how it is set.
ghost use Rattle.std.specs.Prelude.{◌≡◌};
ghost use Rattle.calendar.specs.Stated.{nearest};
ghost use Rattle.ds3231.specs.Clock.{elapsed as elapsed_at, seconds_at, time_at, weekday_at, midnights, second_start, clock_set};
ghost use Rattle.ds3231.specs.Changed.{offset_for};

use calendar::{DAYS_PER_WEEK, DateTime, SECONDS_IN_RANGE, SECONDS_PER_DAY};
use ds3231::Clock;

const NANOS_PER_SECOND: u64 = 1_000_000_000;

// The whole seconds since the base. Instants may fall, and none then.
fn elapsed(clock: Clock, at: u64) -> u64
    ensures { result ≡ elapsed_at clock at }
{
    at.saturating_sub(clock.base_at) / NANOS_PER_SECOND
}

// The seconds since 2000 that the clock shows.
fn seconds(clock: Clock, at: u64) -> u64
    ensures { result ≡ seconds_at clock at }
{
    (clock.base_seconds % SECONDS_IN_RANGE + elapsed(clock, at)) % SECONDS_IN_RANGE
}

// The time that it shows.
pub fn now(clock: Clock, at: u64) -> DateTime
    ensures { result ≡ time_at clock at }
{
    DateTime::from_wrapped_seconds(seconds(clock, at))
}

// The weekday that it shows. The days are counted on over the end of 2199, where the date begins at 2000-01-01 again.
pub(crate) fn weekday(clock: Clock, at: u64) -> u8
    ensures { result ≡ weekday_at clock at }
{
    calendar::weekday_of_day(
        clock.base_seconds / SECONDS_PER_DAY + midnights(clock, at),
        u64::from(clock.weekday_offset),
    )
}

// The midnights that have passed since it was set. The sum stays far below 2^64, and is not taken round.
fn midnights(clock: Clock, at: u64) -> u64
    ensures { result ≡ midnights clock at }
{
    (clock.base_seconds % SECONDS_PER_DAY + elapsed(clock, at)) / SECONDS_PER_DAY
}

// The instant at which the second running at `at` began.
pub(crate) fn second_start(clock: Clock, at: u64) -> u64
    ensures { result ≡ second_start clock at }
{
    at - at.saturating_sub(clock.base_at) % NANOS_PER_SECOND
}

// The clock at the time nearest to `time`, a second beginning at `base_at`, with `weekday` that day. It is inlined: out of line,
// setting the time is slower than the Rust.
#[inline(always)]
pub fn set(time: DateTime, weekday: u8, base_at: u64) -> Clock
    ensures { result ≡ clock_set (nearest time) weekday base_at }
{
    let seconds = time.nearest_seconds();
    Clock {
        base_seconds: seconds,
        base_at,
        weekday_offset: offset_for(weekday, seconds / SECONDS_PER_DAY),
    }
}

// The offset, 0 to 6, with which the day `days` after 2000-01-01 has the weekday: modulo 7, the weekday less 1 is the weekday
// plus 6. It fits its eight bits.
fn offset_for(weekday: u8, days: u64) -> u8
    ensures { result ≡ offset_for weekday days }
{
    ((u64::from(weekday) + 6 + DAYS_PER_WEEK - days % DAYS_PER_WEEK) % DAYS_PER_WEEK) as u8
}
