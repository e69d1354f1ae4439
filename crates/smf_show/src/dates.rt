//! Times as tables show them, in UTC.

ghost use Rattle.std.specs.Prelude.{◌≡◌, ◌++◌, ◌<◌, ◌≤◌, ◌^◌, IfOk, OnOk, string_bytes};
ghost use Rattle.smf_show.specs.Dates.{day_text, is_leap, leap_days, month_in, month_lengths, month_of, month_text, since_text, time_text, two_digits, with_days, year_days, year_of};

use smf_fmri::Text;
use std::alloc::{AllocError, Global};
use std::fmt::Write;

/// The milliseconds of a day.
const DAY: u64 = 86_400_000;

/// The milliseconds of 365 days.
const YEAR: u64 = 365 * DAY;

#[derive(Clone, Copy)]
enum Month {
    January,
    February,
    March,
    April,
    May,
    June,
    July,
    August,
    September,
    October,
    November,
    December,
}

#[derive(Clone, Copy)]
struct MonthLength {
    month: Month,
    days: u64,
}

/// A year, and how many of its days are over.
#[derive(Clone, Copy)]
struct YearDay {
    year: u64,
    day: u64,
}

/// A month, and how many of its days are over.
#[derive(Clone, Copy)]
struct MonthDay {
    month: Month,
    day: u64,
}

// ---- the calendar

fn is_leap(year: u64) -> bool
    ensures { result ≡ is_leap year }
{
    year % 4 == 0 && (year % 100 != 0 || year % 400 == 0)
}

fn leap_days(year: u64) -> u64
    ensures { result ≡ leap_days year }
{
    if is_leap(year) { 1 } else { 0 }
}

fn year_days(year: u64) -> u64
    ensures { result ≡ year_days year }
{
    365 + leap_days(year)
}

/// The year of a day, by the days from 1970 to it.
#[tactic(auto, unfolding(crate::specs::Dates::year_of))]
fn year_of(days: u64) -> YearDay
    requires { days < 2 ^ 48 }
    ensures value { result ≡ year_of days }
    ensures within { result.day ≤ days }
{
    let mut year = 1970;
    let mut day = days;
    for _ in 0..days {
        let length = year_days(year);
        if day < length {
            return YearDay { year, day };
        }
        day -= length;
        year += 1;
    }
    YearDay { year, day }
}

fn with_days(month: Month, days: u64) -> MonthLength
    ensures { result ≡ with_days month days }
{
    MonthLength { month, days }
}

/// The months before December with their days, in a year with so many leap days.
fn month_lengths(leap_days: u64) -> [MonthLength; 11]
    requires { leap_days < 2 }
    ensures { result ≡ month_lengths leap_days }
{
    [
        with_days(Month::January, 31),
        with_days(Month::February, 28 + leap_days),
        with_days(Month::March, 31),
        with_days(Month::April, 30),
        with_days(Month::May, 31),
        with_days(Month::June, 30),
        with_days(Month::July, 31),
        with_days(Month::August, 31),
        with_days(Month::September, 30),
        with_days(Month::October, 31),
        with_days(Month::November, 30),
    ]
}

/// The month of a day, of those in order and December behind them.
fn month_in(months: &[MonthLength], day: u64) -> MonthDay
    ensures value { result ≡ month_in months.now day }
    ensures within { result.day ≤ day }
{
    let mut day = day;
    for length in months {
        if day < length.days {
            return MonthDay {
                month: length.month,
                day,
            };
        }
        day -= length.days;
    }
    MonthDay {
        month: Month::December,
        day,
    }
}

#[tactic(auto, unfolding(crate::specs::Dates::month_of))]
fn month_of(year_day: YearDay) -> MonthDay
    ensures value { result ≡ month_of year_day }
    ensures within { result.day ≤ year_day.day }
{
    month_in(&month_lengths(leap_days(year_day.year)), year_day.day)
}

// ---- texts

fn month_text(month: Month) -> &'static str
    ensures { result.now ≡ month_text month }
{
    match month {
        Month::January => "Jan",
        Month::February => "Feb",
        Month::March => "Mar",
        Month::April => "Apr",
        Month::May => "May",
        Month::June => "Jun",
        Month::July => "Jul",
        Month::August => "Aug",
        Month::September => "Sep",
        Month::October => "Oct",
        Month::November => "Nov",
        Month::December => "Dec",
    }
}

/// Puts the last two digits of a number.
fn put_two_digits(out: &mut String, number: u64) -> Result<(), AllocError>
    ensures { OnOk result (string_bytes out.new ≡ string_bytes out.old ++ two_digits number) }
{
    let tens = number / 10 % 10;
    let ones = number % 10;
    write!(out, "{tens}{ones}")
}

/// The time of day after so many seconds.
fn time_text(alloc: Global, seconds: u64) -> Result<String, AllocError>
    ensures { IfOk result (λ text. string_bytes text ≡ time_text seconds) }
{
    let mut out = String::new(alloc);
    put_two_digits(&mut out, seconds / 3600 % 24)?;
    out.push(':')?;
    put_two_digits(&mut out, seconds / 60 % 60)?;
    out.push(':')?;
    put_two_digits(&mut out, seconds % 60)?;
    Ok(out)
}

fn day_text(alloc: Global, date: YearDay) -> Result<String, AllocError>
    requires { date.day < 2 ^ 48 }
    ensures { IfOk result (λ text. string_bytes text ≡ day_text (month_of date)) }
{
    let date = month_of(date);
    let mut out = String::from_str(alloc, month_text(date.month))?;
    out.push('_')?;
    put_two_digits(&mut out, date.day + 1)?;
    Ok(out)
}

/// When something has been so since a time, as it is seen at another time, both in milliseconds since 1970: the time of day
/// within a day, the day within 365 days, else the year.
pub(crate) fn since_text(alloc: Global, seen_at: u64, time: u64) -> Result<String, AllocError>
    ensures { IfOk result (λ text. string_bytes text ≡ since_text seen_at time) }
{
    let age = seen_at.saturating_sub(time);
    if age < DAY {
        return time_text(alloc, time / 1000);
    }
    let date = year_of(time / DAY);
    if age < YEAR {
        day_text(alloc, date)
    } else {
        let year = date.year;
        format!(in alloc; "{year}")
    }
}
