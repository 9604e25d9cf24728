// The system's words for an error.
use arrayvec::ArrayString;
use std::fmt;
use std::fmt::Write;
use std::io::Error;

// The longest text of an error: 256 bytes of words, and the number behind them.
const LONGEST: usize = 288;

// Prints an error without the number that std puts behind the system's words.
#[derive(Drop)]
pub(crate) struct Words(pub(crate) Error);

impl fmt::Display for Words {
    fn fmt<W: fmt::Write>(&self, f: &mut fmt::Formatter<W>) -> fmt::Result {
        let mut text = ArrayString::<LONGEST>::new();
        write!(text, "{}", self.0)?;
        f.write_str(without_number(&text))
    }
}

fn without_number(text: &str) -> &str {
    match text.split_once(" (os error ") {
        Some((words, _)) => words,
        None => text,
    }
}
