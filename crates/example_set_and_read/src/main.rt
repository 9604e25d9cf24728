// Times set and read back, at the limits of Order 14 of document 02: what was set is read where the START for reading comes less
// than a second after the seconds byte, and a nanosecond later the next second. One chip, in both hour modes and centuries.
// The file `stdout` is what tools/reference/set_and_read writes, by documents 01 and 02.
#![tactic(auto)]

ghost use Rattle.std.specs.Prelude.{◌<◌, ◌^◌};

use anyhow::Result;
use bus_by_value::Session;
use diagnostics::LentError;
use ds3231::Ds3231Config;
use ds3231_chip::power_on;

// The bytes of 0x00 to 0x06, whether a STOP ends each of the two transactions, and the nanoseconds from the seconds byte to the
// START for reading.
type Setting = ([u8; 7], bool, u32);

const LATEST: u32 = 999_999_999;

const TOO_LATE: u32 = 1_000_000_000;

const SETTINGS: [Setting; 18] = [
    ([0x00, 0x00, 0x00, 0x06, 0x01, 0x01, 0x00], true, LATEST),
    ([0x59, 0x59, 0x23, 0x02, 0x31, 0x92, 0x99], true, LATEST),
    ([0x59, 0x59, 0x23, 0x02, 0x31, 0x92, 0x99], false, LATEST),
    ([0x59, 0x59, 0x23, 0x02, 0x31, 0x92, 0x99], false, TOO_LATE),
    ([0x59, 0x59, 0x23, 0x04, 0x31, 0x12, 0x99], true, LATEST),
    ([0x59, 0x59, 0x23, 0x04, 0x31, 0x12, 0x99], true, TOO_LATE),
    ([0x00, 0x00, 0x52, 0x04, 0x29, 0x02, 0x24], true, LATEST),
    ([0x00, 0x00, 0x72, 0x04, 0x29, 0x02, 0x24], false, LATEST),
    ([0x59, 0x59, 0x71, 0x04, 0x29, 0x02, 0x24], true, LATEST),
    ([0x59, 0x59, 0x71, 0x04, 0x29, 0x02, 0x24], false, TOO_LATE),
    ([0x59, 0x59, 0x51, 0x02, 0x29, 0x82, 0x96], true, TOO_LATE),
    ([0x59, 0x59, 0x23, 0x02, 0x29, 0x02, 0x00], true, LATEST),
    ([0x59, 0x59, 0x23, 0x07, 0x28, 0x82, 0x00], false, LATEST),
    ([0x59, 0x59, 0x23, 0x07, 0x28, 0x82, 0x00], true, TOO_LATE),
    ([0x30, 0x15, 0x09, 0x01, 0x01, 0x01, 0x26], false, 9_000),
    (
        [0x30, 0x15, 0x49, 0x07, 0x30, 0x11, 0x25],
        true,
        500_000_000,
    ),
    ([0x00, 0x00, 0x12, 0x03, 0x15, 0x06, 0x50], true, 1_000_000),
    ([0x07, 0x08, 0x61, 0x05, 0x06, 0x87, 0x99], false, LATEST),
];

// Instants and spans, in nanoseconds. No seconds byte comes a whole number of seconds after power-on.
const FIRST: u64 = 60_234_567_890;

const MINUTE: u64 = 60_000_000_000;

const SECOND: u64 = 1_000_000_000;

const MICROSECOND: u64 = 1_000;

const CLOCK: u8 = 0x68;

// A chip with its store of 256 records.
type Panel = Session<256>;

fn main(rt: HostRuntime) -> Result<()> {
    let mut panel: Panel = Session::new(power_on(Ds3231Config::default())?);
    println!(rt; "set,stop,nanoseconds,read")?;
    for place in 0..18u8 {
        let (bytes, stop, nanoseconds) = SETTINGS[usize::from(place)];
        let at = FIRST + u64::from(place) * MINUTE;
        set(&mut panel, bytes, stop, at - 2 * MICROSECOND)?;
        let start = at + u64::from(nanoseconds);
        let time = read(&mut panel, stop, start - 2 * MICROSECOND)?;
        print_line(&rt, (bytes, stop, nanoseconds), time)?;
    }
    Ok(())
}

fn print_line(rt: &impl Print, setting: Setting, time: [u8; 7]) -> Result<()> {
    let (bytes, stop, nanoseconds) = setting;
    let stop = if stop { "STOP" } else { "-" };
    print_bytes(rt, bytes)?;
    print!(rt; ",{stop},{nanoseconds},")?;
    print_bytes(rt, time)?;
    println!(rt)?;
    Ok(())
}

// Writes the seven time registers, the events a microsecond apart. START is at `at`.
fn set(panel: &mut Panel, bytes: [u8; 7], stop: bool, at: u64) -> Result<(), LentError>
    requires { at < 2 ^ 63 }
{
    panel.address(CLOCK, false, at)?;
    panel.write(0x00, at + MICROSECOND)?;
    for place in 0..7u8 {
        panel.write(
            bytes[usize::from(place)],
            at + (2 + u64::from(place)) * MICROSECOND,
        )?;
    }
    if stop {
        panel.stop(at + 9 * MICROSECOND)?;
    }
    Ok(())
}

// Reads the seven time registers. START is at `at`, START for reading 2 µs later, and the READs follow, five seconds between them.
fn read(panel: &mut Panel, stop: bool, at: u64) -> Result<[u8; 7], LentError>
    requires { at < 2 ^ 63 }
{
    panel.address(CLOCK, false, at)?;
    panel.write(0x00, at + MICROSECOND)?;
    let start = at + 2 * MICROSECOND;
    panel.address(CLOCK, true, start)?;
    let mut time = [0; 7];
    for place in 0..7u8 {
        let read_at = start + (1 + u64::from(place)) * 5 * SECOND;
        time[usize::from(place)] = panel.read(place < 6, read_at)?.into();
    }
    if stop {
        panel.stop(start + 36 * SECOND)?;
    }
    Ok(time)
}

fn print_bytes(rt: &impl Print, bytes: [u8; 7]) -> Result<()> {
    let [seconds, minutes, hours, weekday, date, month, year] = bytes;
    print!(rt;
        "{seconds:02X} {minutes:02X} {hours:02X} {weekday:02X} {date:02X} {month:02X} {year:02X}"
    )?;
    Ok(())
}
