// The two calls of `dates_host` for a host in C or Rust, as an archive: each export calls the function of its name there, and
// promises the same.
// A crate is a library or an archive, and a host in C links an archive.
#![tactic(auto)]

ghost use Rattle.std.specs.Prelude.{◌≡◌};
ghost use Rattle.refusals.specs.Numbered.{accepted, and_then};
ghost use Rattle.calendar.specs.Stated.{date_time, checked_seconds, checked, time_of, seconds_of};
ghost use Rattle.dates_host.specs.Packed.{host_date, host_seconds};

// The date of a number of seconds since 2000, as one number: year × 2^40 + month × 2^32 + day × 2^24 + hour × 2^16 +
// minute × 2^8 + second. A refusal is its number times 2^56.
#[unsafe(no_mangle)]
pub extern "C" fn clock_date_from_seconds(seconds: u64) -> u64
    ensures { result ≡ host_date (and_then (checked_seconds seconds) (accepted (time_of seconds))) }
{
    dates_host::clock_date_from_seconds(seconds)
}

// The seconds since 2000 of a date. A refusal is its number times 2^56.
#[unsafe(no_mangle)]
pub extern "C" fn clock_seconds_from_date(
    year: u16,
    month: u8,
    day: u8,
    hour: u8,
    minute: u8,
    second: u8,
) -> u64
    ensures { result ≡ host_seconds (and_then (checked (date_time year month day hour minute second)) (accepted (seconds_of (date_time year month day hour minute second)))) }
{
    dates_host::clock_seconds_from_date(year, month, day, hour, minute, second)
}
