// The parts of a line, pushed to a text of its own, whose type bounds its length; a line that is whole is copied to the lent
// slice. It is not printed by `write!`, which answers an error that no contract rules out. Each `requires` says how much room its
// part needs, which differs: no one type of a line has it.
ghost use Rattle.std.specs.Prelude.{◌+◌, ◌≤◌, ◌<◌, [], ◌∷◌, ◌++◌, ◌≡◌, length, option_to_list};
ghost use Rattle.arrayvec.specs.ArrayString.{array_string_len};
ghost use Rattle.diagnostics.specs.Reports.{line_of};
ghost use Rattle.listing.specs.Text.{decimal_of, hex_digit, hex_of, comma, event_word, word_text, column_text, record_text};
ghost use Rattle.listing.specs.Appended.{byte_column, columns_text};

use crate::LINE;
use arrayvec::ArrayString;
use diagnostics::I2cDiagnosticKind as Kind;
use itoa::Buffer;

// The register that a byte not modelled is written to: the enum of the registers is of a crate that this one does not use.
const CONTROL: u8 = 0x0E;

// A line, or what there is of it so far.
pub(crate) type Line = ArrayString<LINE>;

// A number's decimal digits, with no zero in front.
#[tactic(auto, using(crate::proofs::Digits::decimal_is))]
pub(crate) fn push_decimal(line: &mut Line, n: u64)
    requires { array_string_len line.old + 20 ≤ LINE }
    ensures bytes { line.new.bytes ≡ line.old.bytes ++ decimal_of n }
    ensures len { array_string_len line.new ≤ array_string_len line.old + 20 }
{
    line.push_str(Buffer::new().format(n));
}

// A hexadecimal digit, upper case. `char::from_digit` gives lower case, and an `Option`; with both undone it proves, and takes
// a third more instructions.
#[tactic(auto, unfolding(crate::specs::Text::hex_digit))]
fn hex_digit(d: u8) -> char
    requires { d < 16 }
    ensures value { result ≡ hex_digit d }
    ensures ascii { result < 128 }
{
    char::from(if d < 10 { b'0' + d } else { b'A' - 10 + d })
}

// Two hexadecimal digits of a byte.
#[tactic(auto, using(std::proofs::lemmas::Str::encode_ascii))]
pub(crate) fn push_hex(line: &mut Line, b: u8)
    requires { array_string_len line.old + 2 ≤ LINE }
    ensures bytes { line.new.bytes ≡ line.old.bytes ++ hex_of b }
    ensures len { array_string_len line.new ≡ array_string_len line.old + 2 }
{
    line.push(hex_digit(b / 16));
    line.push(hex_digit(b % 16));
}

// The word for an event's kind.
#[tactic(auto, unfolding(crate::specs::Text::event_word))]
pub(crate) fn event_word(kind: u8) -> &'static str
    ensures { result.now ≡ event_word kind }
{
    match kind {
        0 => "START",
        1 => "WRITE",
        2 => "READ",
        _ => "STOP",
    }
}

// The word for a report's kind.
pub(crate) fn report_word(kind: Kind) -> &'static str
    ensures { result.now ≡ word_text (line_of kind).word }
{
    match kind {
        Kind::NotModelled { .. } => "NOTMODELLED",
        Kind::ReadOnly { .. } => "READONLY",
        Kind::NoSuchRegister { .. } => "NOREGISTER",
        Kind::Undefined { .. } => "UNDEFINED",
    }
}

// A register's column, and that of a byte or of none.
fn push_register(line: &mut Line, register: u8, value: Option<u8>)
    requires { array_string_len line.old + 5 ≤ LINE }
    ensures bytes { line.new.bytes ≡ line.old.bytes ++ (hex_of register ++ comma ++ column_text (byte_column value)) }
    ensures len { array_string_len line.new ≡ array_string_len line.old + 5 }
{
    push_hex(line, register);
    line.push_str(",");
    match value {
        Some(value) => push_hex(line, value),
        None => line.push_str("--"),
    }
}

// A report's columns: register and byte.
pub(crate) fn push_columns(line: &mut Line, kind: Kind)
    requires { array_string_len line.old + 5 ≤ LINE }
    ensures bytes { line.new.bytes ≡ line.old.bytes ++ columns_text (line_of kind) }
    ensures len { array_string_len line.new ≡ array_string_len line.old + 5 }
{
    match kind {
        Kind::NotModelled { value } => push_register(line, CONTROL, Some(value)),
        Kind::ReadOnly { register } | Kind::NoSuchRegister { register } => {
            push_register(line, register, None)
        }
        Kind::Undefined { register, value } => push_register(line, register, Some(value)),
    }
}

// The record that a refusal is about, or a dash.
pub(crate) fn push_record(line: &mut Line, record: Option<u64>)
    requires { array_string_len line.old + 20 ≤ LINE }
    ensures bytes { line.new.bytes ≡ line.old.bytes ++ record_text (option_to_list «record») }
    ensures len { array_string_len line.new ≤ array_string_len line.old + 20 }
{
    match record {
        Some(record) => push_decimal(line, record),
        None => line.push_str("-"),
    }
}
