//! Dates of the calendar and times of day.

ghost use Rattle.std.specs.Prelude.{◌≡◌, ◌<◌, ◌≤ℤ◌, neg_ℤ, pos, IfSome};
ghost use Rattle.term_core.specs.Moments as moments;

use jiff_core::civil::Date;

/// The day's number of a date from 1970-01-01, if the calendar has that date in a year from 1 to
/// 9999.
pub fn day_of_date(year: u64, month: u64, day: u64) -> Option<i64>
    ensures exact { result ≡ moments.day_of_date year month day }
    ensures least { IfSome result (λ n. neg_ℤ (pos 5_000_000) ≤ℤ n) }
    ensures greatest { IfSome result (λ n. n ≤ℤ pos 5_000_000) }
{
    if year < 1 || year > 9999 || month > 12 || day > 31 {
        return None;
    }
    match Date::new(year as i16, month as i8, day as i8) {
        Ok(date) => Some(date.to_unix_epoch_day() as i64),
        Err(_) => None,
    }
}

/// The seconds of a day before a time of day, if there is that time.
pub fn second_of_time(hour: u64, minute: u64, second: u64) -> Option<u64>
    ensures exact { result ≡ moments.second_of_time hour minute second }
    ensures bound { IfSome result (λ n. n < 86_400) }
{
    if hour <= 23 && minute <= 59 && second <= 59 {
        Some(hour * 3600 + minute * 60 + second)
    } else {
        None
    }
}

/// The minutes of a zone's hours and minutes, at most 14:00.
pub fn minutes_of_zone(hours: u64, minutes: u64) -> Option<u64>
    ensures exact { result ≡ moments.minutes_of_zone hours minutes }
    ensures bound { IfSome result (λ n. n < 841) }
{
    if hours <= 14 && minutes <= 59 && hours * 60 + minutes <= 840 {
        Some(hours * 60 + minutes)
    } else {
        None
    }
}
