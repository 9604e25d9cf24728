// The call of `script_digest` for `tools/bench`, as an archive: the export calls the function of its name there, and promises
// the same.
// A crate is a library or an archive, and tools/bench links an archive.
#![tactic(auto)]

ghost use Rattle.std.specs.Prelude.{◌≡◌, length};
ghost use Rattle.refusals.specs.Numbered.{unless};
ghost use Rattle.script_check.specs.Records.{records_in};
ghost use Rattle.script.specs.Runs.{checked_run, answers_to, clockrun_held};

// Runs a script as `clock_script_run` does. The number is for tools/bench alone, which only needs every field of the chip
// and of the store to be read: no contract fixes it.
#[unsafe(no_mangle)]
pub extern "C" fn clock_script_digest(script: &[u8], answers: &mut [u8]) -> u64
    ensures { answers.new ≡ unless (checked_run script.now (length answers.old)) (answers_to script.now clockrun_held (records_in script.now)) answers.old }
{
    script_digest::clock_script_digest(script, answers)
}
