// Three hundred panels in one host, each with a chip of its own, and a copy of every chip. The copies go on to another time and
// get another weekday; the panels stand where they stood.
// The file `stdout` is what tools/reference/panels writes, by Python's calendar, and for the size of a chip by C's layout of structs.
#![tactic(auto)]

mod bus;

use anyhow::Result;
use calendar::DateTime;
use diagnostics::I2cDiagnostic;
use ds3231::{Ds3231, Ds3231Config};
use ds3231_chip::power_on;
use std::alloc::Global;
use std::mem::size_of_val;

const PANELS: u32 = 300;

// So many seconds after one panel the next is powered on: the three hundred stand over the 200 years.
const SECONDS_BETWEEN: u64 = 21_038_112;

// Instants, in nanoseconds.
const SECOND_1: u64 = 1_000_000_000;

const HOUR_12: u64 = 12 * 3_600 * SECOND_1;

const HOUR_36: u64 = 36 * 3_600 * SECOND_1;

const MILLISECOND: u64 = 1_000_000;

fn main(rt: HostRuntime) -> Result<()> {
    let mut store = [I2cDiagnostic::unwritten(); 256];
    let mut panels = powered(rt.alloc())?;
    set_weekdays(&mut panels, &mut store)?;
    let mut copies = panels.clone()?;
    println!(rt; "panel,chip,seconds,minutes,hours,weekday,date,month,year")?;
    print_copies(&rt, &mut copies, &mut store)?;
    print_panels(&rt, &mut panels, &mut store)?;
    print_sizes(&rt, panels.len(), power_on(started(0))?)
}

// The panels' chips.
fn powered(alloc: Global) -> Result<Vec<Ds3231>> {
    (0..PANELS)
        .map(|number| -> Result<Ds3231> { Ok(power_on(started(number))?) })
        .try_collect(alloc)
}

fn started(number: u32) -> Ds3231Config {
    let seconds = u64::from(number) * SECONDS_BETWEEN;
    Ds3231Config {
        start: DateTime::from_wrapped_seconds(seconds),
        ..Ds3231Config::default()
    }
}

// A weekday, 1 to 7.
fn weekday(number: usize) -> u8 {
    (number % 7) as u8 + 1
}

fn set_weekdays(panels: &mut [Ds3231], store: &mut [I2cDiagnostic]) -> Result<()> {
    for (number, chip) in panels.iter_mut().enumerate() {
        bus::set_weekday(chip, store, weekday(number), SECOND_1)?;
    }
    Ok(())
}

// At 36 hours each copy gets the weekday three after the one that its panel got; it is read a millisecond later.
fn print_copies(rt: &impl Print, copies: &mut [Ds3231], store: &mut [I2cDiagnostic]) -> Result<()> {
    for (number, chip) in copies.iter_mut().enumerate() {
        bus::set_weekday(chip, store, weekday(number % 7 + 3), HOUR_36)?;
        let time = bus::read_time(chip, store, HOUR_36 + MILLISECOND)?;
        print_line(rt, number, "copy", time)?;
    }
    Ok(())
}

fn print_panels(rt: &impl Print, panels: &mut [Ds3231], store: &mut [I2cDiagnostic]) -> Result<()> {
    for (number, chip) in panels.iter_mut().enumerate() {
        let time = bus::read_time(chip, store, HOUR_12)?;
        print_line(rt, number, "panel", time)?;
    }
    Ok(())
}

fn print_line(rt: &impl Print, number: usize, chip: &str, time: [u8; 7]) -> Result<()> {
    print!(rt; "{number},{chip}")?;
    for byte in time {
        print!(rt; ",{byte:02X}")?;
    }
    println!(rt)?;
    Ok(())
}

// The bytes of a chip, and those of its weekday offset.
fn print_sizes(rt: &impl Print, panels: usize, chip: Ds3231) -> Result<()> {
    let offset = chip.timing.clock.weekday_offset;
    println!(rt;
        "{panels} chips of {} bytes; of these the weekday offset has {}",
        size_of_val(&chip),
        size_of_val(&offset)
    )?;
    Ok(())
}
