//! Dates and times of day on a civil clock, counted by the calendar of `jiff`.

ghost use Rattle.std.specs.Prelude.{◌≡◌, ◌<◌};
ghost use Rattle.line_base.specs.Moment.{IsMomentMillis, IsShown, counted, fields_of, fields_text, two_digits, four_digits};

use crate::number::digit;
use jiff::civil::DateTime;
use jiff_core::civil::Date;

const DAY_MILLIS: i64 = 86_400_000;

/// A date and a time of day, by its numbers.
#[derive(Clone, Copy)]
pub struct Fields {
    pub year: u32,
    pub month: u32,
    pub day: u32,
    pub hour: u32,
    pub minute: u32,
    pub second: u32,
    pub milli: u32,
}

impl Fields {
    /// The milliseconds since 1970-01-01T00:00:00.000, where the calendar has the date in the
    /// years 1 to 9999 and a clock has the time.
    pub fn count(self) -> Option<i64>
        requires { IsShown self }
        ensures { result ≡ counted self }
    {
        if self.year == 0 {
            return None;
        }
        match DateTime::new(
            self.year as i16,
            self.month as i8,
            self.day as i8,
            self.hour as i8,
            self.minute as i8,
            self.second as i8,
            0,
        ) {
            Ok(civil) => Some(civil.to_plain().to_second() * 1000 + self.milli as i64),
            Err(_) => None,
        }
    }

    /// The date and the time of day that are so many milliseconds after
    /// 1970-01-01T00:00:00.000.
    pub fn at(millis: i64) -> Fields
        requires { IsMomentMillis millis }
        ensures same { result ≡ fields_of millis }
        ensures shown { IsShown result }
    {
        let time = millis.rem_euclid(DAY_MILLIS) as u32;
        let seconds = time / 1_000;
        let minutes = seconds / 60;
        match Date::from_unix_epoch_day(millis.div_euclid(DAY_MILLIS)) {
            Ok(date) => Fields {
                year: date.year as u32,
                month: date.month as u32,
                day: date.day as u32,
                hour: minutes / 60,
                minute: minutes % 60,
                second: seconds % 60,
                milli: time % 1_000,
            },
            Err(_) => unreachable!(),
        }
    }

    /// `YYYY-MM-DDThh:mm:ss.mmm`.
    pub fn text(self) -> [u8; 23]
        requires { IsShown self }
        ensures { result ≡ fields_text self }
    {
        let [y1, y2, y3, y4] = four_digits(self.year);
        let [o1, o2] = two_digits(self.month);
        let [d1, d2] = two_digits(self.day);
        let [h1, h2] = two_digits(self.hour);
        let [m1, m2] = two_digits(self.minute);
        let [s1, s2] = two_digits(self.second);
        let [_, f1, f2, f3] = four_digits(self.milli);
        [
            y1, y2, y3, y4, b'-', o1, o2, b'-', d1, d2, b'T', h1, h2, b':', m1, m2, b':', s1, s2,
            b'.', f1, f2, f3,
        ]
    }
}

fn two_digits(number: u32) -> [u8; 2]
    requires { number < 100 }
    ensures { result ≡ two_digits number }
{
    [digit(number / 10), digit(number)]
}

fn four_digits(number: u32) -> [u8; 4]
    requires { number < 10_000 }
    ensures { result ≡ four_digits number }
{
    [
        digit(number / 1_000),
        digit(number / 100),
        digit(number / 10),
        digit(number),
    ]
}
