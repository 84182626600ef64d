// Times as text: milliseconds since 1970 as a date with three decimals, or "@" and the number outside the years 1970 to 9999.

#![tactic(auto)]

ghost use Rattle.std.specs.Prelude.{◌≡◌, ◌∷◌, ◌≤◌};
ghost use Rattle.printing.specs.Text.{filled};
ghost use Rattle.printing.specs.Pages.{Shows};
ghost use Rattle.dates.specs.Calendar.{leap, year_days, month_days, day_of_year, date_after};
ghost use Rattle.dates.specs.Times.{day_text, clock_text, moment_text, time_text};

use printing::Page;

// A date: years from 1970 on, months and days from 0 on.
#[derive(Clone, Copy)]
pub struct Date {
    pub years: u64,
    pub months: u64,
    pub days: u64,
}

// Whether a year has a leap day.
fn is_leap(y: u64) -> bool
    ensures { result ≡ leap y }
{
    y % 4 == 0 && (y % 100 != 0 || y % 400 == 0)
}

fn year_days(y: u64) -> u64
    ensures { result ≡ year_days y }
{
    if is_leap(y) { 366 } else { 365 }
}

fn february(y: u64) -> u64
    ensures { result ≡ month_days y 1 }
{
    if is_leap(y) { 29 } else { 28 }
}

// The days of a month, counted from 0.
fn month_days(y: u64, m: u64) -> u64
    ensures { result ≡ month_days y m }
{
    match m {
        1 => february(y),
        3 => 30,
        5 => 30,
        8 => 30,
        10 => 30,
        _ => 31,
    }
}

// The month and the day of a year's day.
fn day_of_year(years: u64, day: u64) -> Date
    requires { years ≤ 8029 }
    ensures { result ≡ day_of_year years day }
{
    let mut left = day;
    for months in 0..11 {
        let here = month_days(1970 + years, months);
        if left < here {
            return Date {
                years,
                months,
                days: left,
            };
        }
        left -= here;
    }
    Date {
        years,
        months: 11,
        days: left,
    }
}

// The date that so many days stand before.
fn date_after(days: u64) -> Date
    ensures { result ≡ date_after days }
{
    let mut left = days;
    for years in 0..8029 {
        let here = year_days(1970 + years);
        if left < here {
            return day_of_year(years, left);
        }
        left -= here;
    }
    day_of_year(8029, left)
}

// A sign, and behind it a number in k digits.
fn behind(page: &mut Page, sign: u8, k: usize, v: u64)
    requires { k ≤ 20 }
    ensures { Shows page.old (sign ∷ filled k v) page.new }
{
    page.octet(sign);
    page.filled(k, v);
}

// The year, the month and the day.
fn day(page: &mut Page, date: Date)
    requires { (date.years ≤ 8029) × (date.months ≤ 11) × (date.days ≤ 30) }
    ensures { Shows page.old (day_text date) page.new }
{
    page.filled(4, 1970 + date.years);
    behind(page, b'-', 2, date.months + 1);
    behind(page, b'-', 2, date.days + 1);
}

// The hour, the minute and the second of a day.
fn clock(page: &mut Page, seconds: u64)
    ensures { Shows page.old (clock_text seconds) page.new }
{
    behind(page, b'T', 2, seconds / 3600);
    behind(page, b':', 2, seconds / 60 % 60);
    behind(page, b':', 2, seconds % 60);
}

// A time that has a date: the day, the time of day and three decimals.
fn moment(page: &mut Page, t: u64)
    requires { t ≤ 253402300799999 }
    ensures { Shows page.old (moment_text t) page.new }
{
    let seconds = t / 1000;
    day(page, date_after(seconds / 86400));
    clock(page, seconds % 86400);
    behind(page, b'.', 3, t % 1000);
    page.octet(b'Z');
}

// A time. The bits of one before 1970 are past every date's.
pub fn time(page: &mut Page, time: i64)
    ensures { Shows page.old (time_text time) page.new }
{
    let bits = time.cast_unsigned();
    if 253402300799999 < bits {
        page.octet(b'@');
        return page.signed(time);
    }
    moment(page, bits);
}
