// The DS3231 by value: power-on, soundness, and the calls that ask, each of which tests the chip for itself: `now`,
// `register` and the dropped count.
// Modules: `power`, `sound` and `ask`. `specs/Answers.antt` has what the calls refuse in document 01's numbers.
#![tactic(auto)]

mod ask;
mod power;
mod sound;

pub use ask::{RegisterError, dropped_diagnostics, now, register};
pub use power::{Ds3231ConfigError, no_chip, power_on};
pub use sound::{checked, checked_lent, is_sound};
