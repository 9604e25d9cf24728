// The transactions of the host, their events a microsecond apart.
ghost use Rattle.std.specs.Prelude.{◌<◌, ◌^◌};

use diagnostics::{I2cDiagnostic, LentError};
use ds3231::Ds3231;
use ds3231_bus::I2cTarget;

const CLOCK: u8 = 0x68;

// Writes the weekday register.
pub(crate) fn set_weekday(
    chip: &mut Ds3231,
    store: &mut [I2cDiagnostic],
    weekday: u8,
    at: u64,
) -> Result<(), LentError>
    requires { at < 2 ^ 63 }
{
    chip.address(store, CLOCK, false, at)?;
    chip.write(store, 0x03, at + 1_000)?;
    chip.write(store, weekday, at + 2_000)?;
    chip.stop(store, at + 3_000)?;
    Ok(())
}

// Reads the seven time registers.
pub(crate) fn read_time(
    chip: &mut Ds3231,
    store: &mut [I2cDiagnostic],
    at: u64,
) -> Result<[u8; 7], LentError>
    requires { at < 2 ^ 63 }
{
    chip.address(store, CLOCK, false, at)?;
    chip.write(store, 0x00, at + 1_000)?;
    chip.address(store, CLOCK, true, at + 2_000)?;
    let mut time = [0; 7];
    for place in 0..7u8 {
        let at = at + 3_000 + 1_000 * u64::from(place);
        time[usize::from(place)] = chip.read(store, place < 6, at)?.into();
    }
    chip.stop(store, at + 10_000)?;
    Ok(time)
}
