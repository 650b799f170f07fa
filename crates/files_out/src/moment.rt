//! Dates of a volume as text, in GMT.

use std::alloc::{AllocError, Global};

/// The seconds of a day, and the days of four years of which the first is a leap year.
const DAY: u32 = 86_400;

const FOUR_YEARS: u32 = 1461;

/// The days of the months of a year that isn't a leap year.
const MONTHS: [u32; 12] = [31, 28, 31, 30, 31, 30, 31, 31, 30, 31, 30, 31];

/// A day of a year.
#[derive(Clone, Copy)]
struct YearDay {
    year: u32,
    day: u32,
    leap: bool,
}

/// A date, in seconds since 1904, as `2026-11-30 06:48:23`. Each fourth year up to 2040 is a leap year.
pub(crate) fn moment(alloc: Global, date: u32) -> Result<String, AllocError> {
    let found = year_day(date / DAY);
    let (month, day) = month_day(found);
    let year = found.year;
    let second = date % DAY;
    let hour = second / 3600;
    let minute = second / 60 % 60;
    let rest = second % 60;
    format!(in alloc; "{year:04}-{month:02}-{day:02} {hour:02}:{minute:02}:{rest:02}")
}

// The year of a day since 1904, and which of its days it is.
fn year_day(days: u32) -> YearDay {
    let first = 1904 + days / FOUR_YEARS * 4;
    let rest = days % FOUR_YEARS;
    if rest < 366 {
        return YearDay {
            year: first,
            day: rest,
            leap: true,
        };
    }
    let behind = rest - 366;
    YearDay {
        year: first + 1 + behind / 365,
        day: behind % 365,
        leap: false,
    }
}

// The month and the day of it, both counted from 1.
fn month_day(of: YearDay) -> (u32, u32) {
    let mut month: u32 = 1;
    let mut rest = of.day;
    for days in MONTHS.iter() {
        let days = if month == 2 && of.leap { 29 } else { *days };
        if rest < days {
            break;
        }
        rest = rest.saturating_sub(days);
        month = month.min(11).saturating_add(1);
    }
    (month, rest.saturating_add(1))
}
