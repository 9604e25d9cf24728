// Why a run of a script is refused, by the number in the table of refusals.
ghost use Rattle.std.specs.Prelude.{◌≡◌};
ghost use Rattle.script_check.specs.Records.{record_named};
ghost use Rattle.script.specs.Runs.{run_row};
ghost use Rattle.script.specs.declared.errors.RunError.TheVariants.{Lent as OfLent, Script as OfScript};

use diagnostics::LentError;
use refusals::Refusal;
use script_check::ScriptFault;
use thiserror::Error;

// Why a run is refused.
#[derive(Clone, Copy, Debug, PartialEq, Eq, Error)]
pub enum RunError {
    #[error(transparent)]
    Lent(LentError),
    #[error("not one answer byte is lent for each record")]
    AnswersLength,
    #[error(transparent)]
    Script(ScriptFault),
}

impl RunError {
    // The record that it is about, if it is about one.
    pub fn record(&self) -> Option<usize>
        ensures { result ≡ record_named (run_row self.now).values }
    {
        match self {
            RunError::Lent(_) | RunError::AnswersLength => None,
            RunError::Script(fault) => fault.record(),
        }
    }
}

impl Refusal for RunError {
    ghost row = { run_row };

    fn number(&self) -> u8 {
        match self {
            RunError::Lent(error) => error.number(),
            RunError::AnswersLength => 15,
            RunError::Script(fault) => fault.number(),
        }
    }
}

// Written out: a `From` that `#[from]` derives has no contract, and of the error that `?` then answers nothing is known.
impl From<LentError> for RunError {
    ghost from_gives = { λ d e. e ≡ OfLent d };

    fn from(error: LentError) -> RunError {
        RunError::Lent(error)
    }
}

// Written out: a `From` that `#[from]` derives has no contract, and of the error that `?` then answers nothing is known.
impl From<ScriptFault> for RunError {
    ghost from_gives = { λ f e. e ≡ OfScript f };

    fn from(fault: ScriptFault) -> RunError {
        RunError::Script(fault)
    }
}
