// The two calls of `script` for a host in C or Rust, as an archive: each export calls the function of its name there, and
// promises the same.
// A crate is a library or an archive, and a host in C links an archive.
#![tactic(auto)]

ghost use Rattle.std.specs.Prelude.{◌≡◌, length};
ghost use Rattle.refusals.specs.Numbered.{unless};
ghost use Rattle.script_check.specs.Records.{checked_script, records_in};
ghost use Rattle.script.specs.Runs.{host_number, checked_run, answers_to, clockrun_held};

// Checks a script.
#[unsafe(no_mangle)]
pub extern "C" fn clock_script_check(script: &[u8]) -> u32
    ensures { result ≡ host_number (checked_script script.now) }
{
    script::clock_script_check(script)
}

// Runs a script from the power-on of `run_from_power_on`, into one answer byte a record.
#[unsafe(no_mangle)]
pub extern "C" fn clock_script_run(script: &[u8], answers: &mut [u8]) -> u32
    ensures value { result ≡ host_number (checked_run script.now (length answers.old)) }
    ensures answers_after { answers.new ≡ unless (checked_run script.now (length answers.old)) (answers_to script.now clockrun_held (records_in script.now)) answers.old }
{
    script::clock_script_run(script, answers)
}
