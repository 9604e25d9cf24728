// The kinds of records.
ghost use Rattle.std.specs.Prelude.{◌≡◌, ℕ, List, ◌<◌, not, ltb, eqb, ◌&&◌};
ghost use Rattle.script_check.specs.Records.{little_endian, kind_of, value_of, padding_of, kind_number, bad_value, OfKind};

use crate::RecordFault;

// The kind of a record, which its byte 8 gives.
#[derive(Clone, Copy, Debug, PartialEq, Eq)]
pub enum Kind {
    Start,
    Write,
    Read,
    Stop,
}

// The bits that bytes 8 to 15 of a legal START, WRITE, READ and STOP never have: all but those of the kind and of its values.
const NEVER_SET: [u64; 4] = [!0xFF00, !0xFF01, !0x0102, !0x0003];

// Whether bytes 8 to 15 of a record are a kind, a value that it may have, and zeros: one test for all three. A kind above 3 is
// looked up by its lowest two bits, and has another bit.
pub(crate) fn is_legal_half(half: u64) -> bool
    ensures { (bytes : List ℕ) → kind_of bytes 0 < 256 → value_of bytes 0 < 256 → half ≡ little_endian bytes 8 8
        → result ≡ (ltb (kind_of bytes 0) 4 && not (bad_value (kind_of bytes 0) (value_of bytes 0))) && eqb (padding_of bytes 0) 0 }
{
    half & NEVER_SET[half as usize % 4] == 0
}

impl TryFrom<u8> for Kind {
    type Error = RecordFault;

    ghost try_from_gives = { OfKind };

    fn try_from(number: u8) -> Result<Kind, RecordFault> {
        match number {
            0 => Ok(Kind::Start),
            1 => Ok(Kind::Write),
            2 => Ok(Kind::Read),
            3 => Ok(Kind::Stop),
            _ => Err(RecordFault::Kind),
        }
    }
}

impl Kind {
    // A READ above 1, or a STOP that is not 0.
    #[tactic(auto, unfolding(crate::specs::Records::bad_value))]
    pub(crate) fn is_bad_value(self, value: u8) -> bool
        ensures { result ≡ bad_value (kind_number self) value }
    {
        match self {
            Kind::Start | Kind::Write => false,
            Kind::Read => value > 1,
            Kind::Stop => value > 0,
        }
    }
}
