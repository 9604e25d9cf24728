// Scripts of bus events: what a record holds, the judge of one record, and the check of a whole script.
// To read it: `specs/Records.antt` has what a record is, which scripts are legal and what the check answers;
// `specs/Judging.antt` has the judge and the check as a fold of it, and `proofs/Folds.antt` that both checks are one.
// Modules: `records` reads the sixteen bytes of a record, `kinds` has the kinds of records, `judging` judges a record, `checks`
// goes through a script, and `faults` has what is wrong with one.
#![tactic(auto)]

mod checks;
mod faults;
mod judging;
mod kinds;
mod records;

pub use checks::{check, check_length, check_records};
pub use faults::{RecordFault, ScriptFault};
pub use judging::judge;
pub use kinds::Kind;
pub use records::{instant, kind, value};

// The bytes of a record.
pub const RECORD: usize = 16;

// The most records of a script.
pub const MAX_RECORDS: usize = 2_048;
