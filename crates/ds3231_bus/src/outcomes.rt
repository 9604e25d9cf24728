// A bus call by value: what it leaves with a store of `len` records, and the record to write, if there is one.
ghost use Rattle.std.specs.Prelude.{◌≡◌, option_to_list};
ghost use Rattle.ds3231_bus.specs.ByValue.{CalledOnStores, PostsReports};

use diagnostics::{Diagnostics, I2cDiagnostic, LentError, Posting};
use ds3231::{Ds3231, Event, Reply};
use ds3231_chip::checked_lent;
use ds3231_step::step;

#[derive(Clone, Copy)]
pub(crate) struct Outcome {
    pub(crate) chip: Ds3231,
    pub(crate) reply: Reply,
    pub(crate) posting: Option<Posting>,
}

// An event: refused with 10 where the chip is not sound, then with 11 where the store does not have 256 records.
pub(crate) fn called(chip: Ds3231, len: usize, event: Event) -> Result<Outcome, LentError>
    ensures { CalledOnStores event chip len result }
{
    checked_lent(chip, len)?;
    let stepped = step(chip, event);
    Ok(Outcome {
        chip: stepped.chip,
        reply: stepped.reply,
        posting: posting(stepped.report, chip.diagnostics),
    })
}

// A report stands at the waiting count before it.
fn posting(report: Option<I2cDiagnostic>, counts: Diagnostics) -> Option<Posting>
    ensures { PostsReports (option_to_list report) counts result }
{
    report.map(|record| counts.posting(record))
}
