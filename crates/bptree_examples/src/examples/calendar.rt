//! Years and months of the calendar.
ghost use Rattle.std.specs.Prelude.{◌≡◌, ◌↔◌, IsTrue};
ghost use Rattle.bptree_examples.specs.Calendar.{IsLeapYear, IsLongMonth, IsShortMonth};

use std::alloc::{AllocError, Global};

/// Whether a year has a 29th of February, by the Gregorian rule.
pub fn is_leap_year(year: u16) -> bool
    ensures { IsTrue result ↔ IsLeapYear year }
{
    year % 4 == 0 && (year % 100 != 0 || year % 400 == 0)
}

/// Returns the number of days of a month. January is 1. A number that is no month has 30.
pub fn day_count(year: u16, month: u8) -> u8
    ensures long { IsLongMonth month → result ≡ 31 }
    ensures short { IsShortMonth month → result ≡ 30 }
    ensures leap { month ≡ 2 → IsLeapYear year → result ≡ 29 }
    ensures common { month ≡ 2 → ¬ IsLeapYear year → result ≡ 28 }
{
    match month {
        1 | 3 | 5 | 7 | 8 | 10 | 12 => 31,
        2 => { if is_leap_year(year) { 29 } else { 28 } }
        _ => 30,
    }
}

/// Whether 2000, 2004, 2020, 1900, 2100 and 2021 are leap years.
pub fn leap_years() -> [bool; 6] {
    [
        is_leap_year(2000),
        is_leap_year(2004),
        is_leap_year(2020),
        is_leap_year(1900),
        is_leap_year(2100),
        is_leap_year(2021),
    ]
}

/// Returns the length of February in 2000, 2020, 1900 and 2021.
pub fn days_of_february() -> [u8; 4] {
    [
        day_count(2000, 2),
        day_count(2020, 2),
        day_count(1900, 2),
        day_count(2021, 2),
    ]
}

/// Returns the length of each month of a year.
pub fn days_of_months(alloc: Global, year: u16) -> Result<Vec<u8>, AllocError> {
    let mut days = Vec::new(alloc);
    for month in 1..13 {
        days.push(day_count(year, month))?;
    }
    Ok(days)
}
