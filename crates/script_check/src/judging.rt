// The judge of one record.
ghost use Rattle.std.specs.Prelude.{◌≡◌};
ghost use Rattle.script_check.specs.Judging.{judged};

use crate::kinds::is_legal_half;
use crate::{Kind, RECORD, RecordFault, records};

// Judges a record by its own bytes and the instant before it alone: its instant, which is the next running number, or what is
// wrong with it.
#[tactic(auto, unfolding(crate::specs::Records::judged_after))]
pub fn judge(bytes: [u8; RECORD], last: u64) -> Result<u64, RecordFault>
    ensures { result ≡ judged bytes last }
{
    let (kind, value) = (records::kind(bytes), records::value(bytes));
    let half = records::half::<1>(bytes);
    // One test of kind, value and padding; which of them is bad is asked where one is.
    if !is_legal_half(half) {
        if Kind::try_from(kind)?.is_bad_value(value) {
            return Err(RecordFault::Value);
        }
        return Err(RecordFault::Padding);
    }
    let at = records::instant(bytes);
    if at < last {
        return Err(RecordFault::Falling);
    }
    Ok(at)
}
