// The bounds of a conversion time: power-on with it, and every call on a chip that has it. 0 stands where a call is not refused.
// A call that is refused leaves the chip, the store, the output and the answers of a run as they were.
// The numbers of the file `stdout` are worked out by hand from documents 01 and 02.
#![tactic(auto)]

use anyhow::Result;
use bus_by_value::Session;
use diagnostics::I2cDiagnostic;
use ds3231::{Ds3231, Ds3231Config};
use ds3231_chip::{dropped_diagnostics, now, power_on, register};
use refusals::Refusal;

// The two before the last are 2^32 above legal ones.
const TIMES: [u64; 8] = [
    0,
    124_999_999,
    125_000_000,
    200_000_000,
    200_000_001,
    4_419_967_296,
    4_494_967_296,
    u64::MAX,
];

// The instant in a record to which nothing was written.
const NOTHING: u64 = 1_000;

// A STOP at 5, as a script.
const SCRIPT: [u8; 16] = [5, 0, 0, 0, 0, 0, 0, 0, 3, 0, 0, 0, 0, 0, 0, 0];

// A chip with its store of 256 records.
type Panel = Session<256>;

fn main(rt: HostRuntime) -> Result<()> {
    println!(rt;
        "nanos,power_on,START,WRITE,phase,waiting,READ,STOP,taking,out,store,now,register,dropped,run,answer"
    )?;
    for nanos in TIMES {
        let config = Ds3231Config {
            conversion_nanos: nanos,
            ..Ds3231Config::default()
        };
        print!(rt; "{nanos},{}", number(power_on(config)))?;
        let mut panel = panel_of(nanos)?;
        print_events(&rt, &mut panel)?;
        print_taking(&rt, &mut panel)?;
        print_asked(&rt, panel.chip)?;
        print_run(&rt, &mut panel)?;
    }
    Ok(())
}

// The number of a refusal.
fn number<T: Drop, E: Refusal + Drop>(answer: Result<T, E>) -> u8 {
    match answer {
        Ok(_) => 0,
        Err(error) => error.number(),
    }
}

fn unwritten() -> I2cDiagnostic {
    I2cDiagnostic {
        at: NOTHING,
        ..I2cDiagnostic::unwritten()
    }
}

// A chip at power-on, but for its conversion time.
fn panel_of(nanos: u64) -> Result<Panel> {
    let mut chip = power_on(Ds3231Config::default())?;
    chip.registers.conversion_nanos = nanos;
    Ok(Session {
        chip,
        store: [unwritten(); 256],
    })
}

// A pointer byte that names no register is reported at 2. The chip then ignores what follows, and one report waits. The READ finds
// it addressed for writing.
fn print_events(rt: &impl Print, panel: &mut Panel) -> Result<()> {
    print!(rt; ",{}", number(panel.address(0x68, false, 1)))?;
    print!(rt; ",{}", number(panel.write(0x13, 2)))?;
    let chip = panel.chip;
    print!(rt; ",{:?},{}", chip.timing.phase, chip.diagnostics.waiting)?;
    print!(rt; ",{}", number(panel.read(false, 3)))?;
    print!(rt; ",{}", number(panel.stop(4)))?;
    Ok(())
}

// Taking, and the instants of the first records of output and store.
fn print_taking(rt: &impl Print, panel: &mut Panel) -> Result<()> {
    let mut out = [unwritten(); 256];
    let taking = number(panel.take(&mut out));
    print!(rt; ",{taking},{},{}", out[0].at, panel.store[0].at)?;
    Ok(())
}

fn print_asked(rt: &impl Print, chip: Ds3231) -> Result<()> {
    print!(rt; ",{}", number(now(chip, 4)))?;
    print!(rt; ",{}", number(register(chip, 0x0F, 4)))?;
    print!(rt; ",{}", number(dropped_diagnostics(chip)))?;
    Ok(())
}

// A run, and the byte of its answer, which is AA before it.
fn print_run(rt: &impl Print, panel: &mut Panel) -> Result<()> {
    let mut answers = [0xAA];
    let run = number(panel.run(&SCRIPT, &mut answers));
    println!(rt; ",{run},{:02X}", answers[0])?;
    Ok(())
}
