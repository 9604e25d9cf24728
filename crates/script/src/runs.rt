// The run of a script: each record's event on the chip, its answer, and its report in the store.
ghost use Rattle.std.specs.Prelude.{◌≡◌, Ok, length};
ghost use Rattle.refusals.specs.Numbered.{accepted, and_then, answered};
ghost use Rattle.ds3231_chip.specs.Answers.{lent_verdict};
ghost use Rattle.script.specs.Runs.{clockrun_held, run_row, checked_run, run_verdict, Ran, RanByValue};

use crate::RunError;
use crate::events::event;
use diagnostics::{I2cDiagnostic, MAX_DIAGNOSTICS, post};
use ds3231::{Ds3231, Ds3231Config};
use ds3231_chip::{checked_lent, power_on};
use ds3231_step::step;
use script_check::{RECORD, check_length, check_records};

// The chip and the records after a run.
#[derive(Clone, Copy)]
pub struct RunOutcome {
    pub chip: Ds3231,
    pub records: [I2cDiagnostic; 256],
}

// Runs a script from 2026-01-01T00:00:00, oscillator not stopped, 100 quarters, conversions of 200 ms.
pub fn run_from_power_on(script: &[u8], answers: &mut [u8]) -> Result<RunOutcome, RunError>
    ensures { RanByValue clockrun_held script.now answers.old result answers.new }
{
    let chip = power_on(Ds3231Config::default()).unwrap();
    let records = [I2cDiagnostic::unwritten(); MAX_DIAGNOSTICS];
    run_values(chip, records, script, answers)
}

// Runs a script on a lent chip and a lent store. The store's records are copied into a local array, and back.
pub fn run(
    chip: &mut Ds3231,
    store: &mut [I2cDiagnostic],
    script: &[u8],
    answers: &mut [u8],
) -> Result<(), RunError>
    ensures { Ran (record { chip = chip.old; store = store.old }) script.now answers.old result chip.new store.new answers.new }
{
    checked(*chip, store.len(), script, answers.len())?;
    let mut records = [I2cDiagnostic::unwritten(); MAX_DIAGNOSTICS];
    records.copy_from_slice(store);
    let ran = events(*chip, records, script, answers);
    *chip = ran.chip;
    store.copy_from_slice(&ran.records);
    Ok(())
}

// Runs a script on a chip and 256 records. A refusal leaves them as they are.
pub fn run_values(
    chip: Ds3231,
    records: [I2cDiagnostic; 256],
    script: &[u8],
    answers: &mut [u8],
) -> Result<RunOutcome, RunError>
    ensures { RanByValue (record { chip = chip; store = records }) script.now answers.old result answers.new }
{
    checked(chip, MAX_DIAGNOSTICS, script, answers.len())?;
    Ok(events(chip, records, script, answers))
}

// The chip, the store of `len` records, the script's length, the `room` for answers, then the script's records.
fn checked(chip: Ds3231, len: usize, script: &[u8], room: usize) -> Result<(), RunError>
    ensures { answered run_row result ≡ and_then (lent_verdict chip len) (checked_run script.now room) }
{
    checked_lent(chip, len)?;
    check_length(script.len())?;
    if room != script.len() / RECORD {
        return Err(RunError::AnswersLength);
    }
    check_records(script)?;
    Ok(())
}

// Every record's event in turn, where nothing refuses the run. Each answer is found by its record's number: with `zip`, setting the
// time is at 0.91 of the Rust where chip and store are read.
fn events(
    mut chip: Ds3231,
    mut records: [I2cDiagnostic; 256],
    script: &[u8],
    answers: &mut [u8],
) -> RunOutcome
    requires { run_verdict (record { chip = chip; store = records }) script.now (length answers.old) ≡ accepted tt }
    ensures { Ran (record { chip = chip; store = records }) script.now answers.old (Ok tt) result.chip result.records answers.new }
{
    let (chunks, _) = script.as_chunks::<RECORD>();
    for (i, bytes) in chunks.iter().enumerate() {
        let counts = chip.diagnostics;
        let stepped = step(chip, event(*bytes));
        chip = stepped.chip;
        answers[i] = u8::from(stepped.reply);
        let posting = stepped.report.map(|record| counts.posting(record));
        post(&mut records, posting);
    }
    RunOutcome { chip, records }
}
