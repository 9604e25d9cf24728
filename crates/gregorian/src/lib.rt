// The Gregorian calendar: its definitions and their laws. The one struct is a date.
// To read it: `specs/Calendar.antt` has the leap rule, the lengths of months, the days one by one and weekdays;
// `specs/DayNumbers.antt` the number of a date's day; `specs/Times.antt` times of day, seconds and the first fault of a time;
// `specs/Ranges.antt` the valid times, by the ranges of their fields; `specs/Nearest.antt` the nearest of them.
#![tactic(auto)]

#[derive(Clone, Copy, Debug, PartialEq, Eq)]
pub struct Date {
    pub year: u16,
    pub month: u8,
    pub day: u8,
}
