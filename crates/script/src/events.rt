// The bus event of a record.
ghost use Rattle.std.specs.Prelude.{◌≡◌, ◌≤◌};
ghost use Rattle.script_check.specs.Records.{kind_of};
ghost use Rattle.script.specs.Runs.{event_of};

use ds3231::Event;
use script_check::{Kind, RECORD, instant, kind, value};

// The event of a record, whose kind is one.
#[tactic(auto, unfolding(crate::specs::Runs::event_of))]
pub(crate) fn event(bytes: [u8; RECORD]) -> Event
    requires { kind_of bytes 0 ≤ 3 }
    ensures { result ≡ event_of bytes 0 }
{
    let at = instant(bytes);
    let value = value(bytes);
    match Kind::try_from(kind(bytes)).unwrap() {
        Kind::Start => Event::Start {
            address: value / 2,
            read: value % 2 == 1,
            at,
        },
        Kind::Write => Event::Write { byte: value, at },
        Kind::Read => Event::Read {
            acknowledged: value == 1,
            at,
        },
        Kind::Stop => Event::Stop { at },
    }
}
