// The sixteen bytes of a record, and what stands in them. A type of these bytes would be the array again.
ghost use Rattle.std.specs.Prelude.{◌≡◌, ◌<◌, ◌*◌};
ghost use Rattle.script_check.specs.Records.{little_endian, instant_of, kind_of, value_of};

use crate::RECORD;

// Bytes 0 to 7, lowest first.
pub fn instant(bytes: [u8; RECORD]) -> u64
    ensures { result ≡ instant_of bytes 0 }
{
    half::<0>(bytes)
}

// Bytes 0 to 7 for half 0 and 8 to 15 for half 1, lowest first. A parameter of the call in its place takes 6 instructions more an event.
#[tactic(auto, using(crate::proofs::Bytes::half_number))]
pub(crate) fn half<const I: usize>(bytes: [u8; RECORD]) -> u64
    requires { I < 2 }
    ensures { result ≡ little_endian bytes (8 * I) 8 }
{
    let (halves, _) = bytes.as_chunks::<8>();
    u64::from_le_bytes(halves[I])
}

// Byte 8, which may be any: a `Kind` in its place would need an answer for those above 3.
pub fn kind(bytes: [u8; RECORD]) -> u8
    ensures { result ≡ kind_of bytes 0 }
{
    bytes[8]
}

// Byte 9.
pub fn value(bytes: [u8; RECORD]) -> u8
    ensures { result ≡ value_of bytes 0 }
{
    bytes[9]
}
