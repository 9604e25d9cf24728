// What the bus does to the part of the chip that keeps the time: the bytes that it shows, a byte at a time register, and the
// clock that the end of a transaction sets.
ghost use Rattle.std.specs.Prelude.{◌≡◌, ◌+◌, ◌≤◌, if◌then◌else◌};
ghost use Rattle.fields.specs.Table.{time_bytes};
ghost use Rattle.fields.specs.Answers.{field_meaning, decoded_meaning};
ghost use Rattle.ds3231.specs.Clock.{time_at, weekday_at};
ghost use Rattle.ds3231.specs.Timing.{sets_seconds, opened as openedAt, found, found_at, noted as notedBy, committed_clock, shown_at, pointed, accept as acceptAt};
ghost use Rattle.ds3231.specs.Changed.{changed_time, changed_weekday, changed_mode, next_pointer};

use crate::clock;
use calendar::DateTime;
use ds3231::{Clock, PendingTime, Timing};
use fields::{Field, YEARS_PER_CENTURY};

// The bytes of the seven time registers, in the hour mode last written.
pub fn time_registers(timing: Timing, at: u64) -> [u8; 7]
    ensures { result ≡ shown_at timing at }
{
    shown(timing.clock, timing.twelve_hour, at)
}

// The bytes that a clock shows in an hour mode. It is inlined where power-on latches constants: with a call there the run of a
// script keeps the latched bytes in memory, and is half as fast.
#[inline]
pub fn shown(clock: Clock, twelve_hour: bool, at: u64) -> [u8; 7]
    ensures { result ≡ time_bytes (time_at clock at) (weekday_at clock at) twelve_hour }
{
    fields::time_bytes(
        clock::now(clock, at),
        clock::weekday(clock, at),
        twelve_hour,
    )
}

// ---- a byte at a time register

// What a byte written to the register at the pointer makes of the timing: the pointer moves on, and a byte that is defined
// opens the pending time where there is none, and is noted in it.
pub fn accept(timing: Timing, decoded: Option<Field>, at: u64) -> Timing
    ensures { result ≡ pointed (next_pointer timing.pointer) (acceptAt (decoded_meaning decoded) at timing) }
{
    let pointer = timing.pointer.next();
    match decoded {
        Some(field) => Timing {
            pointer,
            twelve_hour: changed_mode(field, timing.twelve_hour),
            pending: Some(noted(field, pending_time(timing, at))),
            pending_at: begins_at(field, timing, at),
            ..timing
        },
        None => Timing { pointer, ..timing },
    }
}

// The pending time that a byte finds: the first one finds the clock's time and weekday.
fn pending_time(timing: Timing, at: u64) -> PendingTime
    ensures { result ≡ found timing.pending timing.clock at }
{
    timing.pending.unwrap_or_else(|| opened(timing.clock, at))
}

// The pending time of a transaction's first byte: the clock's whole second.
fn opened(clock: Clock, at: u64) -> PendingTime
    ensures { result ≡ openedAt clock at }
{
    PendingTime {
        time: clock::now(clock, at),
        weekday: clock::weekday(clock, at),
    }
}

// The pending time with a field.
fn noted(field: Field, pending: PendingTime) -> PendingTime
    ensures { result ≡ notedBy (field_meaning field) pending }
{
    PendingTime {
        time: changed_time(field, pending.time),
        weekday: changed_weekday(field, pending.weekday),
    }
}

// The instant at which a second of the pending time begins: the last seconds byte, or the start of the second of the first
// byte.
fn begins_at(field: Field, timing: Timing, at: u64) -> u64
    ensures { result ≡ (if sets_seconds (field_meaning field) then at else found_at timing.pending timing.pending_at timing.clock at) }
{
    if let Field::Second(_) = field {
        return at;
    }
    match timing.pending {
        Some(_) => timing.pending_at,
        None => clock::second_start(timing.clock, at),
    }
}

// The time with the field: a month also sets the century, a year keeps it.
fn changed_time(field: Field, time: DateTime) -> DateTime
    ensures { result ≡ changed_time (field_meaning field) time }
{
    let mut time = time;
    match field {
        Field::Second(second) => {
            time.second = second;
            time
        }
        Field::Minute(minute) => {
            time.minute = minute;
            time
        }
        Field::Hour { hour, .. } => {
            time.hour = hour;
            time
        }
        Field::Weekday(_) => time,
        Field::Day(day) => {
            time.day = day;
            time
        }
        Field::Month { month, century } => {
            time.month = month;
            time.year = year_of(century, time.year % YEARS_PER_CENTURY);
            time
        }
        Field::Year(two_digits) => {
            let century = time.year >= DateTime::FIRST_YEAR + YEARS_PER_CENTURY;
            time.year = year_of(century, u16::from(two_digits));
            time
        }
    }
}

// The year of a century, 2000 to 2099 or 2100 to 2199, and two digits.
fn year_of(century: bool, two_digits: u16) -> u16
    requires { two_digits ≤ 255 }
    ensures { result ≡ 2000 + (if century then 100 else 0) + two_digits }
{
    if century {
        DateTime::FIRST_YEAR + YEARS_PER_CENTURY + two_digits
    } else {
        DateTime::FIRST_YEAR + two_digits
    }
}

// The weekday, which only its own field changes.
fn changed_weekday(field: Field, weekday: u8) -> u8
    ensures { result ≡ changed_weekday (field_meaning field) weekday }
{
    match field {
        Field::Weekday(written) => written,
        _ => weekday,
    }
}

// The hour mode, which an hour sets.
fn changed_mode(field: Field, twelve_hour: bool) -> bool
    ensures { result ≡ changed_mode (field_meaning field) twelve_hour }
{
    match field {
        Field::Hour {
            twelve_hour: written,
            ..
        } => written,
        _ => twelve_hour,
    }
}

// ---- the end of a transaction

// The clock after a commit, which sets it to the pending time: a day past the month's end becomes its last day.
pub fn commit(timing: Timing) -> Clock
    ensures { result ≡ committed_clock timing.pending timing.pending_at timing.clock }
{
    match timing.pending {
        Some(pending) => clock::set(pending.time, pending.weekday, timing.pending_at),
        None => timing.clock,
    }
}
