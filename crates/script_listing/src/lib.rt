// What `clockrun` prints for a script, whole, made in a lent slice of bytes.
// Script and text of `listing` are slices that the caller has, and go on as they are.
// To read it: `specs/Listing.antt` has the listing of a script, or the line of its refusal; the lines are `listing`'s.
#![tactic(auto)]

ghost use Rattle.std.specs.Prelude.{◌≡◌, ◌+◌, ◌*◌, ◌/◌, ◌≤◌, min, length, take};
ghost use Rattle.listing.specs.Appended.{Appended};
ghost use Rattle.script_check.specs.Records.{records_in};
ghost use Rattle.script.specs.Runs.{held_at, answers_to, clockrun_held};
ghost use Rattle.script_listing.specs.Listing.{event_lines, ran_listing, listing_of, Printed, ListedInput};

use diagnostics::MAX_DIAGNOSTICS;
use listing::{LINE, diagnostic_lines, dropped_line, event_line, header, refused_line};
use refusals::Refusal;
use script::{MAX_RECORDS, RECORD, Record, RunOutcome, run_from_power_on};

// Room for every line of a script: the header, the events, the diagnostics and the dropped count.
pub const LISTING: usize = LINE * (1 + MAX_RECORDS + MAX_DIAGNOSTICS + 1);

// How much of an input tells its listing: a byte more than a script may have, which refuses all longer ones.
pub const INPUT: usize = RECORD * MAX_RECORDS + 1;

// The text of a script, in front of what stood behind it, where there is room for any script's: else nothing. The answers
// stand in the first bytes of a local array. It answers how long the text is: a part of the slice for an answer would keep the slice lent.
pub fn listing(script: &[u8], out: &mut [u8]) -> usize
    ensures { Printed (listing_of script.now) out.old out.new result }
{
    if out.len() < LISTING {
        return 0;
    }
    let mut space = [0u8; MAX_RECORDS];
    let n = answers_of(script.len());
    listed(script, &mut space[..n], out)
}

// The listing of an input that was read into `input`, its first `n` bytes: all of the input, or as much as `input` holds. The
// array's length says how much may be held; a slice of what was read would not.
pub fn input_listing(input: [u8; INPUT], n: usize, out: &mut [u8]) -> usize
    ensures { ListedInput input n out.old out.new result }
{
    listing(front(n, &input), out)
}

// How many answers a script of `len` bytes has, if it is not too long.
fn answers_of(len: usize) -> usize
    ensures { result ≡ min (len / 16) 2048 }
{
    (len / RECORD).min(MAX_RECORDS)
}

// Runs the script, with a byte lent for each answer, and goes by what the run answers.
fn listed(script: &[u8], answers: &mut [u8], out: &mut [u8]) -> usize
    requires { (length answers.old ≡ min (records_in script.now) 2048) × (110688 ≤ length out.old) }
    ensures { Appended (listing_of script.now) out.old 0 out.new result }
{
    match run_from_power_on(script, answers) {
        Ok(end) => ran(script, answers, end, out),
        Err(error) => {
            // std has no `From<usize>` for u64.
            let record = error.record().map(|record| record as u64);
            refused_line(out, 0, error.number(), record)
        }
    }
}

// The text of a script that ran, from its answers and what the run left.
fn ran(script: &[u8], answers: &[u8], end: RunOutcome, out: &mut [u8]) -> usize
    requires answers_value { (answers.now ≡ answers_to script.now clockrun_held (records_in script.now)) × (record { chip = end.chip; store = end.records } ≡ held_at script.now clockrun_held (records_in script.now)) }
    requires script_bound { (records_in script.now ≤ 2048) × (110688 ≤ length out.old) }
    ensures { Appended (ran_listing script.now) out.old 0 out.new result }
{
    let counts = end.chip.diagnostics;
    let next = header(out, 0);
    let next = event_lines(script, answers, out, next);
    let next = diagnostic_lines(out, next, end.records, counts.waiting);
    dropped_line(out, next, counts.dropped)
}

// The lines of the events, one for each record and its answer.
fn event_lines(script: &[u8], answers: &[u8], out: &mut [u8], at: usize) -> usize
    requires { (answers.now ≡ answers_to script.now clockrun_held (records_in script.now)) × (at + 48 * records_in script.now ≤ length out.old) }
    ensures { Appended (event_lines script.now (records_in script.now)) out.old at out.new result }
{
    let mut next = at;
    let (records, _) = script.as_chunks::<RECORD>();
    for (bytes, answer) in records.iter().zip(answers) {
        let event = Record::from(*bytes);
        next = event_line(out, next, event.at, event.kind, event.value, *answer);
    }
    next
}

// The first `n` bytes of a slice, or all of them.
pub fn front(n: usize, bytes: &[u8]) -> &[u8]
    ensures { result.now ≡ take n bytes.now }
{
    bytes.get(..n).unwrap_or(bytes)
}
