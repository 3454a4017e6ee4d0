//! Dates as the Macintosh counts them, and as people read them. Where the host is out of memory, a
//! text may have got a part of what is appended.

ghost use Rattle.std.specs.Prelude.{◌≡◌, ℕ, ◌+◌, ◌≤◌, ◌<◌, ◌++◌, OnOk};
ghost use Rattle.fork_commands.specs.Dates.{is_leap, days_in_year, days_in_month, day_in, year_of};
ghost use Rattle.fork_commands.specs.Dates.{month_of, moment, seconds_to, IsMoment, two_digits};
ghost use Rattle.fork_commands.specs.Dates.{date_text, time_text, moment_text};

use itoa::Buffer;
use std::alloc::AllocError;

/// A day of a year or of a month.
#[derive(Clone, Copy)]
struct DayIn {
    /// The year, or the month, of which January is 1.
    period: u64,
    /// The day of it, counted from 0.
    day: u64,
}

/// A date of the Gregorian calendar, and a time.
#[derive(Clone, Copy)]
pub struct Moment {
    pub year: u64,
    /// The month, 1 to 12.
    pub month: u64,
    /// The day of the month, 1 to 31.
    pub day: u64,
    /// The hour, 0 to 23.
    pub hour: u64,
    pub minute: u64,
    pub second: u64,
}

/// Returns whether a year is a leap year.
fn is_leap_year(year: u64) -> bool
    ensures { result ≡ is_leap year }
{
    year % 4 == 0 && (year % 100 != 0 || year % 400 == 0)
}

/// Returns the number of days of a year.
fn year_length(year: u64) -> u64
    ensures { result ≡ days_in_year year }
{
    if is_leap_year(year) { 366 } else { 365 }
}

/// Returns the number of days of a month.
fn month_length(year: u64, month: u64) -> u64
    ensures length { result ≡ days_in_month year month }
{
    if month == 2 {
        return if is_leap_year(year) { 29 } else { 28 };
    }
    if month == 4 || month == 6 || month == 9 || month == 11 {
        30
    } else {
        31
    }
}

/// Returns the year of a day that is counted from 1 January 1904, among 400 years.
#[tactic(auto, using(crate::proofs::Counting::none_more))]
fn year_among(day: u64) -> DayIn
    ensures year { result ≡ day_in days_in_year 400 1904 day }
    ensures early { result.period ≤ 2304 }
    ensures small { result.day ≤ day }
{
    let mut year = 1904;
    let mut left = day;
    for _ in 0..400u32 {
        let len = year_length(year);
        if left < len {
            return DayIn {
                period: year,
                day: left,
            };
        }
        left -= len;
        year += 1;
    }
    DayIn {
        period: year,
        day: left,
    }
}

/// Returns the year of a day that is counted from 1 January 1904.
fn year_at(day: u64) -> DayIn
    requires { day < 213503982334602 }
    ensures year { result ≡ year_of day }
    ensures small { result.day < 146097 }
{
    let found = year_among(day % 146097);
    DayIn {
        period: 400 * (day / 146097) + found.period,
        day: found.day,
    }
}

/// Returns the month of a day of a year.
#[tactic(auto, using(crate::proofs::Counting::none_more))]
fn month_at(date: DayIn) -> DayIn
    requires { date.day < 146097 }
    ensures month { result ≡ month_of date }
    ensures small { result.day ≤ date.day }
{
    let mut month = 1;
    let mut left = date.day;
    for _ in 0..12u32 {
        let len = month_length(date.period, month);
        if left < len {
            return DayIn {
                period: month,
                day: left,
            };
        }
        left -= len;
        month += 1;
    }
    DayIn {
        period: month,
        day: left,
    }
}

/// Returns the date and the time of a number of seconds from the midnight that begins 1
/// January 1904.
///
/// *Inside Macintosh: Operating System Utilities*, chapter 4, "Date, Time, and Measurement
/// Utilities".
pub fn moment_of(seconds: u64) -> Moment
    ensures { result ≡ moment seconds }
{
    let date = year_at(seconds / 86400);
    let month = month_at(date);
    let second = seconds % 86400;
    Moment {
        year: date.period,
        month: month.period,
        day: month.day + 1,
        hour: second / 3600,
        minute: second / 60 % 60,
        second: second % 60,
    }
}

/// Appends the last two digits of a number.
fn push_two(text: &mut Vec<u8>, number: u64) -> Result<(), AllocError>
    ensures { OnOk result (text.new.items ≡ text.old.items ++ two_digits number) }
{
    text.extend_from_slice(&[(48 + number / 10 % 10) as u8, (48 + number % 10) as u8])
}

/// Appends a date by its year, month and day.
fn push_date(text: &mut Vec<u8>, moment: Moment) -> Result<(), AllocError>
    ensures { OnOk result (text.new.items ≡ text.old.items ++ date_text moment) }
{
    text.extend_from_slice(Buffer::new().format(moment.year).as_bytes())?;
    text.push(b'-')?;
    push_two(text, moment.month)?;
    text.push(b'-')?;
    push_two(text, moment.day)?;
    Ok(())
}

/// Appends a time by its hour, minute and second.
fn push_time(text: &mut Vec<u8>, moment: Moment) -> Result<(), AllocError>
    ensures { OnOk result (text.new.items ≡ text.old.items ++ time_text moment) }
{
    push_two(text, moment.hour)?;
    text.push(b':')?;
    push_two(text, moment.minute)?;
    text.push(b':')?;
    push_two(text, moment.second)?;
    Ok(())
}

/// Appends a date and a time as people read them, as in `1995-03-04T11:22:33`. ISO 8601.
pub fn append_moment(text: &mut Vec<u8>, moment: Moment) -> Result<(), AllocError>
    ensures { OnOk result (text.new.items ≡ text.old.items ++ moment_text moment) }
{
    push_date(text, moment)?;
    text.push(b'T')?;
    push_time(text, moment)?;
    Ok(())
}

/// States that the date and the time of a number of seconds are of the calendar and of the clock,
/// and stand for that number alone.
///
/// *Inside Macintosh: Operating System Utilities*, chapter 4, "Date, Time, and Measurement
/// Utilities".
pub fn a_moment_has_one_number()
    ensures number { (seconds : ℕ) → seconds_to (moment seconds) ≡ seconds }
    ensures calendar { (seconds : ℕ) → IsMoment (moment seconds) }
{}
