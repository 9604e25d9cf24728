// Re-runs recorded lists of calls (vectors/README.md has their form) and prints the answers, a line each.
// Modules: `record` has the call that a record holds, `chip` the calls of the chip, `taking` the taking of diagnostics, `dates`
// the calls of `DateTime`, and `text` the text of answers.
#![tactic(auto)]

ghost use Rattle.std.specs.Prelude.{◌≡◌, ◌<◌, length};

use bus_by_value::Session;
use ds3231_chip::{dropped_diagnostics, now, register};
use record::Call;
use script_check::RECORD;

mod chip;
mod dates;
mod record;
mod taking;
mod text;

// A chip with its store of 256 records.
type Whole = Session<256>;

// Runs the lists of `input` to its end, and answers where that is.
// The loop counts them, since a `for` over numbers has no end at the input's. That of scripts is alike: one for both would take as
// parameters the unit of a length, the line before and what is done with a piece that is cut.
pub fn replay(rt: &impl Print, input: &[u8]) -> usize
    ensures { result ≡ length input.now }
{
    let mut session = chip::begun();
    let mut rest = input;
    let mut number = 0;
    while !rest.is_empty() {
        rest = turn(rt, rest, number, &mut session);
        number = number.wrapping_add(1);
    }
    input.len() - rest.len()
}

// The first list of `input`: the number of its records in four bytes, then the records. Answers what comes after it, and
// nothing where it is not whole; the whole records of such a list are answered.
fn turn<'a>(rt: &impl Print, input: &'a [u8], number: u64, session: &mut Whole) -> &'a [u8]
    requires { 0 < length input.now }
    ensures { length result.now < length input.now }
{
    let Some((header, rest)) = input.split_first_chunk::<4>() else {
        return &[];
    };
    text::list(rt, number);
    // std has no `From<u32>` for usize.
    let length = RECORD * u32::from_le_bytes(*header) as usize;
    let Some((list, rest)) = rest.split_at_checked(length) else {
        answers(rt, rest, session);
        return &[];
    };
    answers(rt, list, session);
    rest
}

// Answers the whole records of `list`.
fn answers(rt: &impl Print, list: &[u8], session: &mut Whole) {
    let (records, _) = list.as_chunks::<RECORD>();
    for record in records {
        answer(rt, Call::from(*record), session);
        text::line_end(rt);
    }
}

// An arm for each call, since each has values of its own.
fn answer(rt: &impl Print, call: Call, session: &mut Whole) {
    match call {
        Call::Start { address, read, at } => text::reply(rt, session.address(address, read, at)),
        Call::Write { byte, at } => text::reply(rt, session.write(byte, at)),
        Call::Read { acknowledged, at } => text::reply(rt, session.read(acknowledged, at)),
        Call::Stop { at } => text::reply(rt, session.stop(at)),
        Call::PowerOn(config) => *session = chip::on(rt, config),
        Call::Register { number, at } => {
            text::answer(
                rt,
                register(session.chip, number, at),
                |byte| text::hex(rt, byte),
            );
        }
        Call::Now { at } => text::answer(rt, now(session.chip, at), |time| text::time(rt, time)),
        Call::Dropped => {
            text::answer(
                rt,
                dropped_diagnostics(session.chip),
                |count| text::decimal(rt, count),
            );
        }
        Call::Take => taking::taken(rt, session),
        Call::Validate(time) => dates::answer(rt, time.validate(), |_| text::ok(rt)),
        Call::FromSeconds(seconds) => dates::from_seconds(rt, seconds),
        Call::Seconds(time) => {
            dates::answer(
                rt,
                time.seconds_since_2000(),
                |seconds| text::decimal(rt, seconds),
            );
        }
        Call::Weekday(time) => {
            dates::answer(rt, time.weekday(), |weekday| text::decimal(rt, weekday));
        }
    }
}
