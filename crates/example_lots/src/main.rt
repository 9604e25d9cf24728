// Chips of two lots, and of times that are none of a DS3231: each converts its temperature once, and firmware polls status every
// 25 ms to learn when.
// The file `stdout` is what tools/reference/conversions writes, by documents 01 and 02.
#![tactic(auto)]

ghost use Rattle.std.specs.Prelude.{◌<◌, ◌^◌};

use anyhow::Result;
use bus_by_value::Session;
use diagnostics::LentError;
use ds3231::Ds3231Config;
use ds3231_chip::power_on;
use refusals::Refusal;

// Conversion times, in nanoseconds.
const LOTS: [u64; 5] = [
    124_999_999,
    125_000_000,
    160_000_000,
    200_000_000,
    200_000_001,
];

// Instants and spans, in nanoseconds.
const SECOND_1: u64 = 1_000_000_000;

const POLLED_EACH: u64 = 25_000_000;

const MICROSECOND: u64 = 1_000;

const CLOCK: u8 = 0x68;

// A chip with its store of 256 records.
type Panel = Session<256>;

fn main(rt: HostRuntime) -> Result<()> {
    println!(rt; "conversion_nanos,25,50,75,100,125,150,175,200")?;
    for conversion_nanos in LOTS {
        print!(rt; "{conversion_nanos}")?;
        print_lot(&rt, conversion_nanos)?;
        println!(rt)?;
    }
    Ok(())
}

// Status at each poll, or the number of the refusal.
fn print_lot(rt: &impl Print, conversion_nanos: u64) -> Result<()> {
    let config = Ds3231Config {
        conversion_nanos,
        ..Ds3231Config::default()
    };
    match power_on(config) {
        Ok(chip) => print_polls(rt, Session::new(chip))?,
        Err(error) => print!(rt; ",refused,{}", error.number())?,
    }
    Ok(())
}

// A conversion that starts at 1 s, and status so many times 25 ms later.
fn print_polls(rt: &impl Print, mut panel: Panel) -> Result<()> {
    convert(&mut panel, SECOND_1 - 2 * MICROSECOND)?;
    for poll in 1..=8u64 {
        let at = SECOND_1 + poll * POLLED_EACH;
        let status = read_status(&mut panel, at - 3 * MICROSECOND)?;
        print!(rt; ",{status:02X}")?;
    }
    Ok(())
}

// Writes CONV, and control's other bits as at power-on. START is at `at`, and the byte 2 µs later.
fn convert(panel: &mut Panel, at: u64) -> Result<(), LentError>
    requires { at < 2 ^ 63 }
{
    panel.address(CLOCK, false, at)?;
    panel.write(0x0E, at + MICROSECOND)?;
    panel.write(0x3C, at + 2 * MICROSECOND)?;
    panel.stop(at + 3 * MICROSECOND)?;
    Ok(())
}

// Status. START is at `at`, and the READ 3 µs later.
fn read_status(panel: &mut Panel, at: u64) -> Result<u8, LentError>
    requires { at < 2 ^ 63 }
{
    panel.address(CLOCK, false, at)?;
    panel.write(0x0F, at + MICROSECOND)?;
    panel.address(CLOCK, true, at + 2 * MICROSECOND)?;
    let status = panel.read(false, at + 3 * MICROSECOND)?;
    panel.stop(at + 4 * MICROSECOND)?;
    Ok(status.into())
}
