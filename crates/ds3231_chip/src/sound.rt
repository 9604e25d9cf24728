// Soundness, part by part.
ghost use Rattle.std.specs.Prelude.{◌≡◌};
ghost use Rattle.refusals.specs.Numbered.{answered};
ghost use Rattle.diagnostics.specs.Lent.{not_sound_row, lent_row};
ghost use Rattle.ds3231.specs.Calls.{sound_time, sound_pending, sound_timing, in_quarters, in_conversion_times, sound_registers, sound, checked_chip};
ghost use Rattle.ds3231_chip.specs.Answers.{lent_verdict};

use calendar::{DateTime, SECONDS_IN_RANGE};
use diagnostics::{LentError, MAX_DIAGNOSTICS, NotSound};
use ds3231::{Ds3231, PendingTime, Registers, Timing};
use ds3231_registers::registers::CONV;

// The status bits that the chip keeps: OSF, EN32kHz, A2F and A1F.
const STATUS_BITS: u8 = 0x8B;

// Valid apart from its day, which is 1 to 31: `validate` holds the day to its month, and answers which field is wrong.
fn sound_time(time: DateTime) -> bool
    ensures { result ≡ sound_time time }
{
    (DateTime::FIRST_YEAR..=DateTime::LAST_YEAR).contains(&time.year)
        & (1..=12).contains(&time.month)
        & (1..=31).contains(&time.day)
        & (time.hour <= 23)
        & (time.minute <= 59)
        & (time.second <= 59)
}

fn sound_pending(pending: PendingTime) -> bool
    ensures { result ≡ sound_pending pending }
{
    sound_time(pending.time) & (1..=7).contains(&pending.weekday)
}

// The pointer is at most 0x12 by its type.
#[tactic(auto, unfolding(ds3231::specs::Calls::sound_timing))]
fn sound_timing(timing: Timing) -> bool
    ensures { result ≡ sound_timing timing }
{
    let clock = timing.clock;
    (clock.base_seconds < SECONDS_IN_RANGE)
        & (clock.weekday_offset <= 6)
        & timing.pending.is_none_or(sound_pending)
}

#[tactic(auto, unfolding(ds3231::specs::Calls::in_quarters))]
pub(crate) fn in_quarters(quarters: i16) -> bool
    ensures { result ≡ in_quarters quarters }
{
    (-512..=511).contains(&quarters)
}

#[tactic(auto, unfolding(ds3231::specs::Calls::in_conversion_times))]
pub(crate) fn in_conversion_times(nanos: u64) -> bool
    ensures { result ≡ in_conversion_times nanos }
{
    (125_000_000..=200_000_000).contains(&nanos)
}

fn sound_registers(registers: Registers) -> bool
    ensures { result ≡ sound_registers registers }
{
    in_quarters(registers.temperature_quarters)
        & (registers.control & CONV == 0)
        & (registers.status & STATUS_BITS == registers.status)
        & in_conversion_times(registers.conversion_nanos)
}

#[tactic(auto, unfolding(ds3231::specs::Calls::sound))]
pub fn is_sound(chip: Ds3231) -> bool
    ensures { result ≡ sound chip }
{
    sound_timing(chip.timing)
        & sound_registers(chip.registers)
        & (chip.diagnostics.waiting <= MAX_DIAGNOSTICS)
}

// Whether the chip is sound, as a call that asks tests it.
pub fn checked(chip: Ds3231) -> Result<(), NotSound>
    ensures { answered not_sound_row result ≡ checked_chip chip }
{
    if !is_sound(chip) {
        return Err(NotSound);
    }
    Ok(())
}

// Whether the chip is sound and the store that it is lent, of `len` records, has 256, as a call tests it that is lent one. A call by
// value has of the store its length alone.
pub fn checked_lent(chip: Ds3231, len: usize) -> Result<(), LentError>
    ensures { answered lent_row result ≡ lent_verdict chip len }
{
    checked(chip)?;
    if len != MAX_DIAGNOSTICS {
        return Err(LentError::StoreLength);
    }
    Ok(())
}
