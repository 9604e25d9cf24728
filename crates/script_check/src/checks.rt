// The check of a script.
ghost use Rattle.std.specs.Prelude.{◌≡◌};
ghost use Rattle.refusals.specs.Numbered.{answered};
ghost use Rattle.script_check.specs.Records.{records_in, fault_row, checked_length, checked_from, checked_script};

use crate::judging::judge;
use crate::{MAX_RECORDS, RECORD, ScriptFault};

// The longest script, in bytes.
const MAX_SCRIPT: usize = RECORD * MAX_RECORDS;

// Checks a script: its length, then record by record.
pub fn check(script: &[u8]) -> Result<(), ScriptFault>
    ensures { answered fault_row result ≡ checked_script script.now }
{
    check_length(script.len())?;
    check_records(script)
}

// The length of a script.
#[tactic(auto, unfolding(crate::specs::Records::checked_length))]
pub fn check_length(len: usize) -> Result<(), ScriptFault>
    ensures { answered fault_row result ≡ checked_length len }
{
    if len > MAX_SCRIPT {
        return Err(ScriptFault::TooLong);
    }
    if len % RECORD != 0 {
        return Err(ScriptFault::NotWhole);
    }
    Ok(())
}

// The first record that is not legal, of all that are whole. `last` is the instant of the record before, 0 before the first.
pub fn check_records(script: &[u8]) -> Result<(), ScriptFault>
    ensures { answered fault_row result ≡ checked_from script.now 0 (records_in script.now) }
{
    let (records, _) = script.as_chunks::<RECORD>();
    let mut last = 0;
    for (i, bytes) in records.iter().enumerate() {
        last = judge(*bytes, last).map_err(|fault| ScriptFault::Record(i, fault))?;
    }
    Ok(())
}
