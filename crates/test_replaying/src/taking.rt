// Taking the diagnostics.
use crate::{Whole, text};
use diagnostics::{I2cDiagnostic, MAX_DIAGNOSTICS};
use listing::{LINE, diagnostic_lines};

// A line end, and room for the line of each record.
const LINES: usize = 1 + LINE * MAX_DIAGNOSTICS;

// Takes into 256 records, and prints how many there are and a line for each, without the end of the last, which ends the
// answer. Records and count go on as `diagnostic_lines` takes them.
pub(crate) fn taken(rt: &impl Print, session: &mut Whole) {
    let mut out = [I2cDiagnostic::unwritten(); MAX_DIAGNOSTICS];
    match session.take(&mut out) {
        Ok(count) => {
            text::decimal(rt, count);
            let mut lines = [b'\n'; LINES];
            let end = diagnostic_lines(&mut lines, 1, out, count);
            text::bytes(rt, &lines[..end - 1]);
        }
        Err(error) => text::refused(rt, &error),
    }
}
