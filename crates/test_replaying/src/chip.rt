// The calls of the chip, on a chip and a store of 256 records.
use crate::{Whole, text};
use bus_by_value::Session;
use ds3231::Ds3231Config;
use ds3231_chip::no_chip;

// The chip of the default power-on, with a store.
pub(crate) fn begun() -> Whole {
    Session::new(ds3231_chip::power_on(Ds3231Config::default()).unwrap_or(no_chip()))
}

// A power-on; where it is refused, a chip that is not sound.
pub(crate) fn on(rt: &impl Print, config: Ds3231Config) -> Whole {
    match ds3231_chip::power_on(config) {
        Ok(chip) => {
            text::ok(rt);
            Session::new(chip)
        }
        Err(error) => {
            text::not_on(rt, error);
            Session::new(no_chip())
        }
    }
}
