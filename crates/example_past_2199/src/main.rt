// A simulation of 574 years: the clock passes the end of 2199 three times, and firmware reads it a second before each end and there.
// After the first end the minutes are written as they are, so that no weekday byte sets the weekday; after the second one it is set to 1.
// The file `stdout` is what tools/reference/weekdays writes, by documents 01 and 02.
#![tactic(auto)]

ghost use Rattle.std.specs.Prelude.{◌≤◌};

use anyhow::Result;
use bus_by_value::Session;
use diagnostics::LentError;
use ds3231::Ds3231Config;
use ds3231_chip::power_on;

// The seconds of 2000 to 2199, and from power-on, at 2026-01-01, to each end of 2199.
const RANGE: u64 = 6_311_433_600;

const END_1: u64 = RANGE - 820_540_800;

const END_2: u64 = END_1 + RANGE;

const END_3: u64 = END_2 + RANGE;

const SECOND: u64 = 1_000_000_000;

const MICROSECOND: u64 = 1_000;

const CLOCK: u8 = 0x68;

const MINUTES: u8 = 0x01;

const WEEKDAY: u8 = 0x03;

// A chip with its store of 256 records.
type Panel = Session<256>;

fn main(rt: HostRuntime) -> Result<()> {
    let mut panel: Panel = Session::new(power_on(Ds3231Config::default())?);
    println!(rt; "second,shown,weekday")?;
    print_visit(&rt, &mut panel, 0)?;
    print_visit(&rt, &mut panel, END_1 - 1)?;
    print_visit(&rt, &mut panel, END_1)?;
    write_register(&mut panel, END_1 + 10, MINUTES, 0x00)?;
    print_visit(&rt, &mut panel, END_1 + 20)?;
    print_visit(&rt, &mut panel, END_2 - 1)?;
    print_visit(&rt, &mut panel, END_2)?;
    write_register(&mut panel, END_2 + 10, WEEKDAY, 0x01)?;
    print_visit(&rt, &mut panel, END_2 + 20)?;
    print_visit(&rt, &mut panel, END_3 - 1)?;
    print_visit(&rt, &mut panel, END_3)
}

// The second after power-on, and what the chip shows there.
fn print_visit(rt: &impl Print, panel: &mut Panel, second: u64) -> Result<()>
    requires { second ≤ 18_113_760_000 }
{
    let time = read_time(panel, second)?;
    print!(rt; "{second},")?;
    print_time(rt, time)
}

// The bytes of 0x00 to 0x06 as date and time, and the weekday. The bytes are two decimal digits each.
fn print_time(rt: &impl Print, time: [u8; 7]) -> Result<()> {
    let [seconds, minutes, hours, weekday, date, month, year] = time;
    let century = if month & 0x80 == 0 { 20 } else { 21 };
    let month = month & 0x7F;
    print!(rt; "{century}{year:02X}-{month:02X}-{date:02X}")?;
    println!(rt; "T{hours:02X}:{minutes:02X}:{seconds:02X},{weekday}")?;
    Ok(())
}

// Writes a register, the events a microsecond apart.
fn write_register(panel: &mut Panel, second: u64, register: u8, byte: u8) -> Result<(), LentError>
    requires { second ≤ 18_113_760_000 }
{
    let at = second * SECOND;
    panel.address(CLOCK, false, at)?;
    panel.write(register, at + MICROSECOND)?;
    panel.write(byte, at + 2 * MICROSECOND)?;
    panel.stop(at + 3 * MICROSECOND)?;
    Ok(())
}

// Reads the seven time registers, the events a microsecond apart.
fn read_time(panel: &mut Panel, second: u64) -> Result<[u8; 7], LentError>
    requires { second ≤ 18_113_760_000 }
{
    let at = second * SECOND;
    panel.address(CLOCK, false, at)?;
    panel.write(0x00, at + MICROSECOND)?;
    panel.address(CLOCK, true, at + 2 * MICROSECOND)?;
    let mut time = [0; 7];
    for place in 0..7u8 {
        let read_at = at + (3 + u64::from(place)) * MICROSECOND;
        time[usize::from(place)] = panel.read(place < 6, read_at)?.into();
    }
    panel.stop(at + 10 * MICROSECOND)?;
    Ok(time)
}
