// What taking leaves, by value: the chip, and how many records are copied.
ghost use Rattle.std.specs.Prelude.{◌≡◌};
ghost use Rattle.ds3231_bus.specs.Answers.{take_row};
ghost use Rattle.ds3231_bus.specs.ByValue.{TookOnStores};
ghost use Rattle.ds3231_bus.specs.declared.takings.TakeError.TheVariants.{Lent as OfLent};

use diagnostics::{Diagnostics, LentError};
use ds3231::Ds3231;
use ds3231_chip::checked_lent;
use refusals::Refusal;
use thiserror::Error;

// Why taking is refused.
#[derive(Clone, Copy, Debug, PartialEq, Eq, Error)]
pub enum TakeError {
    #[error(transparent)]
    Lent(LentError),
    #[error("fewer records are lent than wait")]
    OutTooShort,
}

impl Refusal for TakeError {
    ghost row = { take_row };

    fn number(&self) -> u8 {
        match self {
            TakeError::Lent(error) => error.number(),
            TakeError::OutTooShort => 12,
        }
    }
}

// Written out: a `From` that `#[from]` derives has no contract, and of the error that `?` then answers nothing is known.
impl From<LentError> for TakeError {
    ghost from_gives = { λ d e. e ≡ OfLent d };

    fn from(error: LentError) -> TakeError {
        TakeError::Lent(error)
    }
}

#[derive(Clone, Copy)]
pub(crate) struct Taking {
    pub(crate) chip: Ds3231,
    pub(crate) count: usize,
}

// Taking from a store of `len` records into an output of `room`.
pub(crate) fn taken(chip: Ds3231, len: usize, room: usize) -> Result<Taking, TakeError>
    ensures { TookOnStores chip len room result }
{
    checked_lent(chip, len)?;
    let counts = chip.diagnostics;
    if room < counts.waiting {
        return Err(TakeError::OutTooShort);
    }
    let emptied = Ds3231 {
        diagnostics: Diagnostics {
            waiting: 0,
            ..counts
        },
        ..chip
    };
    Ok(Taking {
        chip: emptied,
        count: counts.waiting,
    })
}
