// What a chip on the bus reports: the kinds, the record, the lent store of 256 records and its counts.
// To read it: `specs/Reports.antt` has what a report does to the store and the counts, and document 01's word, register and
// byte of each kind; `specs/Lent.antt` has what `report` promises of the counts and the store that it is lent.
#![tactic(auto)]

ghost use Rattle.std.specs.Prelude.{◌≡◌};
ghost use Rattle.diagnostics.specs.Reports.{counted, unwritten, report as report_of};
ghost use Rattle.diagnostics.specs.Lent.{not_sound_row, lent_row, ReportedTo};
ghost use Rattle.diagnostics.specs.declared.LentError.TheVariants.{NotSound as LentNotSound};
ghost use Rattle.diagnostics.specs.ByValue.{posted, posting_of, ReportedOnStores};

use refusals::Refusal;
use thiserror::Error;

// How many records the store has room for.
pub const MAX_DIAGNOSTICS: usize = 256;

// The chip that reports.
#[derive(Clone, Copy, Debug, PartialEq, Eq, Hash)]
pub enum ChipName {
    Ds3231,
}

// What is reported. A register is a number, as the Rust has it: a pointer past the last is none of the registers.
#[derive(Clone, Copy, Debug, PartialEq, Eq, Hash)]
pub enum I2cDiagnosticKind {
    // Control enabled the INT/SQW output, which is not modelled: the byte as written.
    NotModelled { value: u8 },
    // A write to a register that is read only.
    ReadOnly { register: u8 },
    // A register pointer past the chip's registers.
    NoSuchRegister { register: u8 },
    // A value that the datasheet leaves undefined.
    Undefined { register: u8, value: u8 },
}

// A diagnostic, the chip that reported it and its instant.
#[derive(Clone, Copy, Debug, PartialEq, Eq, Hash)]
pub struct I2cDiagnostic {
    pub at: u64,
    pub chip: ChipName,
    pub kind: I2cDiagnosticKind,
}

impl I2cDiagnostic {
    // A report of the clock.
    pub fn new(at: u64, kind: I2cDiagnosticKind) -> I2cDiagnostic
        ensures { result ≡ report_of at kind }
    {
        I2cDiagnostic {
            at,
            chip: ChipName::Ds3231,
            kind,
        }
    }

    // What stands in a record that no report was written to.
    pub fn unwritten() -> I2cDiagnostic
        ensures { result ≡ unwritten }
    {
        I2cDiagnostic::new(0, I2cDiagnosticKind::ReadOnly { register: 0 })
    }
}

// A record with its place in the store.
#[derive(Clone, Copy, Debug, PartialEq, Eq)]
pub struct Posting {
    pub slot: usize,
    pub record: I2cDiagnostic,
}

// A chip, or the counts of its store, that is not sound.
#[derive(Clone, Copy, Debug, PartialEq, Eq, Error)]
#[error("the chip is not sound")]
pub struct NotSound;

impl Refusal for NotSound {
    ghost row = { not_sound_row };

    fn number(&self) -> u8 {
        10
    }
}

// Why a call that is lent a store is refused. `NotSound` has no value: the error of that name would add nothing to it.
#[derive(Clone, Copy, Debug, PartialEq, Eq, Error)]
pub enum LentError {
    #[error("the chip or the counts are not sound")]
    NotSound,
    #[error("the store does not have 256 records")]
    StoreLength,
}

impl Refusal for LentError {
    ghost row = { lent_row };

    fn number(&self) -> u8 {
        match self {
            LentError::NotSound => 10,
            LentError::StoreLength => 11,
        }
    }
}

impl From<NotSound> for LentError {
    ghost from_gives = { λ _ e. e ≡ LentNotSound };

    fn from(_error: NotSound) -> LentError {
        LentError::NotSound
    }
}

// How many records wait in the store, from its start, and how many reports were dropped since power-on. The store is lent, of
// 256 records: a chip needs no heap.
#[derive(Clone, Copy, Debug, Default, PartialEq, Eq)]
pub struct Diagnostics {
    pub waiting: usize,
    pub dropped: u64,
}

impl Diagnostics {
    // A report stands at the waiting count before it.
    pub fn posting(self, report: I2cDiagnostic) -> Posting
        ensures { result ≡ posting_of self report }
    {
        Posting {
            slot: self.waiting,
            record: report,
        }
    }

    // The counts after one more report: it waits in the store, or is dropped where the store is full.
    pub fn one_more(self) -> Diagnostics
        ensures { result ≡ counted self }
    {
        if self.waiting < MAX_DIAGNOSTICS {
            return Diagnostics {
                waiting: self.waiting + 1,
                ..self
            };
        }
        Diagnostics {
            dropped: self.dropped.saturating_add(1),
            ..self
        }
    }

    // One more report of the clock: its record is written at the waiting count, or it is dropped where the store is full.
    pub fn report(
        &mut self,
        store: &mut [I2cDiagnostic],
        kind: I2cDiagnosticKind,
        at: u64,
    ) -> Result<(), LentError>
        ensures { ReportedTo self.old store.old (report_of at kind) result self.new store.new }
    {
        let out = self.reported(store.len(), kind, at)?;
        *self = out.counts;
        post(store, Some(out.posting));
        Ok(())
    }

    // A report by value, into a store of `len` records. It tests the counts alone: `checked_lent` of `ds3231_chip` tests a whole chip.
    fn reported(
        self,
        len: usize,
        kind: I2cDiagnosticKind,
        at: u64,
    ) -> Result<ReportOutcome, LentError>
        ensures { ReportedOnStores self len (report_of at kind) result }
    {
        if self.waiting > MAX_DIAGNOSTICS {
            return Err(LentError::NotSound);
        }
        if len != MAX_DIAGNOSTICS {
            return Err(LentError::StoreLength);
        }
        Ok(ReportOutcome {
            counts: self.one_more(),
            posting: self.posting(I2cDiagnostic::new(at, kind)),
        })
    }
}

// What a report leaves of the counts, and the record to write.
#[derive(Clone, Copy)]
struct ReportOutcome {
    counts: Diagnostics,
    posting: Posting,
}

// Writes a report's record into its place in a store, if there is a report and the store has the place. Every report is written
// by it; a script's run has it write into a copy of the store. With `get_mut` it does not prove: of a slice after it the length is known, and no element.
pub fn post(store: &mut [I2cDiagnostic], posting: Option<Posting>)
    ensures { store.new ≡ posted posting store.old }
{
    if let Some(posting) = posting {
        if posting.slot < store.len() {
            store[posting.slot] = posting.record;
        }
    }
}
