ghost use Rattle.std.specs.Prelude.{◌≡◌, if◌then◌else◌, IsTrue, Some, None};
ghost use Rattle.pgs_base.specs.Day.{is_day};

use crate::{Copyable, Memory};
use jiff::civil::Date;
use std::alloc::Global;
use std::marker::Model;

/// A day of the Gregorian calendar, of the years 1 to 9999. Days go by time.
#[derive(Clone, Copy, Debug, PartialEq, Eq, PartialOrd, Ord, Hash)]
pub struct Day {
    year: u16,
    month: u8,
    day: u8,
}

impl Model for Day {
    ghost use Rattle.std.specs.Prelude.{ℕ, IsTrue};
    ghost use Rattle.pgs_base.specs.Day.{is_day};

    ghost Value = { ℕ × ℕ × ℕ };

    ghost view = { λ day. (day.year, day.month, day.day) };

    ghost invariant = { λ day. IsTrue (is_day day.year day.month day.day) };

    ghost inverse = { λ parts. record { year = parts.0; month = parts.1; day = parts.2 } };
}

fn is_in_calendar(year: u16, month: u8, day: u8) -> bool
    ensures { result ≡ is_day year month day }
{
    if year < 1 || year > 9999 || month > 12 || day > 31 {
        return false;
    }
    Date::new(year as i16, month as i8, day as i8).is_ok()
}

impl Day {
    /// The day of these numbers. `None` exactly where it is no day of the years 1 to 9999.
    pub fn new(year: u16, month: u8, day: u8) -> Option<Day>
        ensures { result ≡ (if is_day year month day then Some (year, month, day) else None) }
    {
        if is_in_calendar(year, month, day) {
            Some(Day { year, month, day })
        } else {
            None
        }
    }

    /// The year, 1 to 9999.
    pub fn year(&self) -> u16
        ensures { result ≡ self.now.0 }
    {
        self.year
    }

    /// The month, 1 to 12.
    pub fn month(&self) -> u8
        ensures { result ≡ self.now.1 }
    {
        self.month
    }

    /// The day of its month, from 1.
    pub fn day(&self) -> u8
        ensures value { result ≡ self.now.2 }
        ensures calendar { IsTrue (is_day self.now.0 self.now.1 self.now.2) }
    {
        self.day
    }
}

impl Copyable for Day {
    fn copy(&self, _alloc: Global) -> Result<Day, Memory> {
        Ok(*self)
    }
}
