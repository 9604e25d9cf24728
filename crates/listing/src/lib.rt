// The text that `clockrun` prints, line by line, appended to a lent slice of bytes.
// To read it: `specs/Text.antt` has each line, byte by byte, and `specs/Appended.antt` what appending leaves in the slice. The
// module `blocks` has the parts of a line: words, digits and columns.
// Slice and position are two parameters: a cursor of both would hold a `&mut`, and each method owe a clause that it keeps it.
#![tactic(auto)]

mod blocks;

ghost use Rattle.std.specs.Prelude.{◌+◌, ◌*◌, ◌≤◌, min, ◌≡◌, leb, length, take, option_to_list};
ghost use Rattle.listing.specs.Text.{header as headerText, event_line, diagnostic_line, diagnostic_lines, dropped_line, refused_line};
ghost use Rattle.listing.specs.Appended.{Appended, AppendedIn};

use blocks::{Line, event_word, push_columns, push_decimal, push_hex, push_record, report_word};
use diagnostics::I2cDiagnostic;

// A line has at most so many bytes.
pub const LINE: usize = 48;

// The text's first line.
pub fn header(out: &mut [u8], at: usize) -> usize
    ensures { AppendedIn 48 headerText out.old at out.new result }
{
    append(out, at, "at,event,value,answer\n")
}

// The line of an event on the bus. Its kind is a byte, of which any above 2 is a STOP: a type of the four kinds would ask more.
pub fn event_line(out: &mut [u8], at: usize, instant: u64, kind: u8, value: u8, answer: u8) -> usize
    ensures { AppendedIn 48 (event_line instant kind value answer) out.old at out.new result }
{
    append(out, at, &event(instant, kind, value, answer))
}

// The line with the count of dropped reports.
pub fn dropped_line(out: &mut [u8], at: usize, count: u64) -> usize
    ensures { AppendedIn 48 (dropped_line count) out.old at out.new result }
{
    append(out, at, &dropped(count))
}

// The line of a refusal: its number, and the record that it is about, if there is one. Any byte may be the number: a type of the
// errors would ask more.
pub fn refused_line(out: &mut [u8], at: usize, number: u8, record: Option<u64>) -> usize
    ensures { AppendedIn 48 (refused_line number (option_to_list «record»)) out.old at out.new result }
{
    append(out, at, &refused(number, record))
}

// The lines of the first `count` records, or of all of them, where there is room for so many lines. Records and count are as a
// run or a taking leaves them: a slice of the first `count` would ask callers to bound the count.
pub fn diagnostic_lines(
    out: &mut [u8],
    at: usize,
    records: [I2cDiagnostic; 256],
    count: usize,
) -> usize
    ensures { AppendedIn (48 * min count 256) (diagnostic_lines (take count records)) out.old at out.new result }
{
    let count = count.min(records.len());
    if !has_room(out.len(), at, LINE * count) {
        return at;
    }
    reports(out, at, &records[..count])
}

// The lines of the records, where there is room for them.
#[tactic(auto, using(crate::proofs::Appending::nothing))]
fn reports(out: &mut [u8], at: usize, records: &[I2cDiagnostic]) -> usize
    requires { at + 48 * length records.now ≤ length out.old }
    ensures { Appended (diagnostic_lines records.now) out.old at out.new result }
{
    let mut next = at;
    for diagnostic in records {
        next = put(out, next, &report(*diagnostic));
    }
    next
}

// Appends a line where a line of any length has room.
fn append(out: &mut [u8], at: usize, line: &str) -> usize
    requires { length line.now ≤ 48 }
    ensures { AppendedIn 48 line.now out.old at out.new result }
{
    if !has_room(out.len(), at, LINE) {
        return at;
    }
    put(out, at, line)
}

// Are there `room` bytes from `at` to the end of a slice of `len` bytes?
fn has_room(len: usize, at: usize, room: usize) -> bool
    ensures { result ≡ leb (at + room) len }
{
    at <= len && room <= len - at
}

// Writes a text from `at` on, and answers the position behind it.
#[tactic(auto, using(crate::proofs::Appending::written))]
fn put(out: &mut [u8], at: usize, text: &str) -> usize
    requires { at + length text.now ≤ length out.old }
    ensures { Appended text.now out.old at out.new result }
{
    let end = at + text.len();
    out[at..end].copy_from_slice(text.as_bytes());
    end
}

// An event's line.
#[tactic(auto, using(crate::proofs::Lines::event_word_length))]
fn event(instant: u64, kind: u8, value: u8, answer: u8) -> Line
    ensures { result.bytes ≡ event_line instant kind value answer }
{
    let mut line = Line::new();
    push_decimal(&mut line, instant);
    line.push_str(",");
    line.push_str(event_word(kind));
    line.push_str(",");
    push_hex(&mut line, value);
    line.push_str(",");
    push_hex(&mut line, answer);
    line.push_str("\n");
    line
}

// A report's line.
#[tactic(auto, using(crate::proofs::Lines::report_word_length))]
fn report(diagnostic: I2cDiagnostic) -> Line
    ensures { result.bytes ≡ diagnostic_line diagnostic }
{
    let kind = diagnostic.kind;
    let mut line = Line::new();
    line.push_str("DS3231,");
    push_decimal(&mut line, diagnostic.at);
    line.push_str(",");
    line.push_str(report_word(kind));
    line.push_str(",");
    push_columns(&mut line, kind);
    line.push_str("\n");
    line
}

// The dropped count's line.
fn dropped(count: u64) -> Line
    ensures { result.bytes ≡ dropped_line count }
{
    let mut line = Line::new();
    line.push_str("dropped,");
    push_decimal(&mut line, count);
    line.push_str("\n");
    line
}

// A refusal's line.
#[tactic(auto, using(crate::proofs::Digits::byte_length))]
fn refused(number: u8, record: Option<u64>) -> Line
    ensures { result.bytes ≡ refused_line number (option_to_list «record») }
{
    let mut line = Line::new();
    line.push_str("refused,");
    push_decimal(&mut line, u64::from(number));
    line.push_str(",");
    push_record(&mut line, record);
    line.push_str("\n");
    line
}
