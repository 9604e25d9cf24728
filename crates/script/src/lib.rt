// Scripts: the check, the run on a chip, and the two calls for a host in C or Rust.
// To read it: `specs/Records.antt` of `script_check` has what a record is and which scripts are legal; `specs/Runs.antt` has
// what a run answers and leaves, and the host's number, and `proofs/RunLaws.antt` the laws of a run.
// Modules: `records` has the fields of a record, `events` the event of a record, `runs` the run, `errors`
// why a run is refused, and `host` the host's calls. The check is that of `script_check`.
// Script and answers are two slices, as the C interface lends them; chip and store too, as document 01 does.
#![tactic(auto)]

mod errors;
mod events;
mod host;
mod records;
mod runs;

pub use errors::RunError;
pub use host::{clock_script_check, clock_script_run};
pub use records::Record;
pub use runs::{RunOutcome, run, run_from_power_on, run_values};
pub use script_check::{Kind, MAX_RECORDS, RECORD, RecordFault, ScriptFault, check};
