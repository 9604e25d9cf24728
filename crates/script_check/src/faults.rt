// What is wrong with a record or a script, by its number in the table of refusals.
ghost use Rattle.std.specs.Prelude.{◌≡◌};
ghost use Rattle.script_check.specs.Records.{fault_row, record_named};

use refusals::Refusal;
use thiserror::Error;

// What is wrong with a record.
#[derive(Clone, Copy, Debug, PartialEq, Eq, Error)]
pub enum RecordFault {
    #[error("its kind is above 3")]
    Kind,
    #[error("its value is none of its kind: a READ has 0 or 1, a STOP 0")]
    Value,
    #[error("its bytes 10 to 15 are not zero")]
    Padding,
    #[error("its instant is below the one before it")]
    Falling,
}

// What is wrong with a script.
#[derive(Clone, Copy, Debug, PartialEq, Eq, Error)]
pub enum ScriptFault {
    #[error("the script is over 32,768 bytes")]
    TooLong,
    #[error("the script's length is not a multiple of 16 bytes")]
    NotWhole,
    // A record, by its number from 0, and what is wrong with it.
    #[error("record {0}: {1}")]
    Record(usize, RecordFault),
}

impl ScriptFault {
    // The record that it is about, if it is about one.
    pub fn record(&self) -> Option<usize>
        ensures { result ≡ record_named (fault_row self.now).values }
    {
        match *self {
            ScriptFault::TooLong | ScriptFault::NotWhole => None,
            ScriptFault::Record(i, _) => Some(i),
        }
    }
}

impl Refusal for ScriptFault {
    ghost row = { fault_row };

    fn number(&self) -> u8 {
        match *self {
            ScriptFault::TooLong => 14,
            ScriptFault::NotWhole => 13,
            ScriptFault::Record(_, RecordFault::Kind) => 16,
            ScriptFault::Record(_, RecordFault::Value) => 17,
            ScriptFault::Record(_, RecordFault::Padding) => 18,
            ScriptFault::Record(_, RecordFault::Falling) => 19,
        }
    }
}
