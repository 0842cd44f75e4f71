//! Lexical forms and datatypes (XSD 1.1 part 2, sections 3.3.7 and 3.3.9).

ghost use Rattle.std.specs.Prelude.{◌≡◌, ◌≤◌, ◌<◌, ◌-ℤ◌, ◌*ℤ◌, ◌≤ℤ◌, neg_ℤ, pos, length, take, true, IfSome};
ghost use Rattle.term_core.specs.Moments as moments;
ghost use Rattle.xsd_time.specs.Values.{moment_found};

use crate::Moment;
use crate::calendar::{day_of_date, minutes_of_zone, second_of_time};
use crate::fields::{digits_value, has_form, number_at, split_digits};

/// The day of a text that begins YYYY-MM-DD.
fn day_at_front(text: &[u8]) -> Option<i64>
    requires { 10 ≤ length text.now }
    ensures exact { result ≡ moments.day_at_front text.now }
    ensures least { IfSome result (λ n. neg_ℤ (pos 5_000_000) ≤ℤ n) }
    ensures greatest { IfSome result (λ n. n ≤ℤ pos 5_000_000) }
{
    day_of_date(
        number_at(0, 4, text),
        number_at(5, 2, text),
        number_at(8, 2, text),
    )
}

/// The seconds of a day before the time in a text that begins YYYY-MM-DDThh:mm:ss.
fn second_at_front(text: &[u8]) -> Option<u64>
    requires { 19 ≤ length text.now }
    ensures exact { result ≡ moments.second_at_front text.now }
    ensures bound { IfSome result (λ n. n < 86_400) }
{
    second_of_time(
        number_at(11, 2, text),
        number_at(14, 2, text),
        number_at(17, 2, text),
    )
}

/// The nanoseconds that one to nine digits behind a point write.
#[tactic(auto, using(crate::proofs::Forms::scaled_bound))]
fn nanos_of_digits(digits: &[u8]) -> Option<u64>
    ensures exact { result ≡ moments.nanos_of_digits digits.now }
    ensures bound { IfSome result (λ n. n ≤ 23_000_000_000) }
{
    if digits.is_empty() || digits.len() > 9 {
        return None;
    }
    Some(digits_value(digits) * 10u64.pow(9 - digits.len() as u32))
}

/// The nanoseconds behind the seconds, and the text behind them.
fn fraction_of(text: &[u8]) -> (Option<u64>, &[u8])
    ensures nanos { result.0 ≡ (moments.fraction_of text.now).0 }
    ensures rest { result.1.now ≡ (moments.fraction_of text.now).1 }
    ensures bound { IfSome result.0 (λ n. n ≤ 23_000_000_000) }
{
    match text {
        [b'.', behind @ ..] => {
            let (digits, zone) = split_digits(behind);
            (nanos_of_digits(digits), zone)
        }
        _ => (Some(0), text),
    }
}

/// The minutes that a zone is ahead of UTC.
fn offset_of(zone: &[u8]) -> Option<i64>
    ensures exact { result ≡ moments.offset_of zone.now }
    ensures least { IfSome result (λ n. neg_ℤ (pos 841) ≤ℤ n) }
    ensures greatest { IfSome result (λ n. n ≤ℤ pos 841) }
{
    if zone == b"Z".as_slice() {
        return Some(0);
    }
    let is_ahead = has_form(b"+00:00", zone);
    if !is_ahead && !has_form(b"-00:00", zone) {
        return None;
    }
    let minutes = minutes_of_zone(number_at(1, 2, zone), number_at(4, 2, zone))? as i64;
    if is_ahead {
        Some(minutes)
    } else {
        Some(-minutes)
    }
}

/// A count of nanoseconds less a zone's offset in minutes.
fn less_offset(nanos: i128, minutes: i64) -> i128
    requires least { neg_ℤ (pos 1_000_000_000_000_000_000_000) ≤ℤ nanos }
    requires greatest { nanos ≤ℤ pos 1_000_000_000_000_000_000_000 }
    requires least_offset { neg_ℤ (pos 841) ≤ℤ minutes }
    requires greatest_offset { minutes ≤ℤ pos 841 }
    ensures { result ≡ nanos -ℤ minutes *ℤ pos 60_000_000_000 }
{
    nanos - minutes as i128 * 60_000_000_000
}

/// The moment of a count of nanoseconds on a clock, by the zone behind it.
fn moment_in_zone(nanos: i128, zone: &[u8]) -> Option<Moment>
    requires least { neg_ℤ (pos 1_000_000_000_000_000_000_000) ≤ℤ nanos }
    requires greatest { nanos ≤ℤ pos 1_000_000_000_000_000_000_000 }
    ensures { moment_found result ≡ moments.moment_in_zone nanos zone.now }
{
    if zone.is_empty() {
        return Some(Moment::Local { nanos });
    }
    let minutes = offset_of(zone)?;
    Some(Moment::Instant {
        nanos: less_offset(nanos, minutes),
    })
}

/// The nanoseconds from 1970-01-01T00:00:00 on one clock.
fn clock_nanos(day: i64, second: u64, nanos: u64) -> i128
    requires least { neg_ℤ (pos 5_000_000) ≤ℤ day }
    requires greatest { day ≤ℤ pos 5_000_000 }
    requires second { second < 86_400 }
    requires nanos { nanos ≤ 23_000_000_000 }
    ensures exact { result ≡ moments.clock_nanos day second nanos }
    ensures least { neg_ℤ (pos 1_000_000_000_000_000_000_000) ≤ℤ result }
    ensures greatest { result ≤ℤ pos 1_000_000_000_000_000_000_000 }
{
    (day as i128 * 86_400 + second as i128) * 1_000_000_000 + nanos as i128
}

/// The moment of a day, of the seconds in it, of a fraction and of a zone, if there is each of them.
fn moment_of_parts(
    day: Option<i64>,
    second: Option<u64>,
    nanos: Option<u64>,
    zone: &[u8],
) -> Option<Moment>
    requires least { IfSome day (λ n. neg_ℤ (pos 5_000_000) ≤ℤ n) }
    requires greatest { IfSome day (λ n. n ≤ℤ pos 5_000_000) }
    requires second { IfSome second (λ n. n < 86_400) }
    requires nanos { IfSome nanos (λ n. n ≤ 23_000_000_000) }
    ensures { moment_found result ≡ moments.moment_of_parts day second (nanos, zone.now) }
{
    moment_in_zone(clock_nanos(day?, second?, nanos?), zone)
}

/// Whether a text begins YYYY-MM-DDThh:mm:ss.
fn begins_date_time(text: &[u8]) -> bool
    ensures exact { result ≡ moments.has_form moments.date_time_form (take 19 text.now) }
    ensures long { result ≡ true → 19 ≤ length text.now }
{
    text.len() >= 19 && has_form(b"0000-00-00T00:00:00", &text[..19])
}

/// The moment of a text YYYY-MM-DDThh:mm:ss with a fraction or none and a zone or none.
fn moment_of_date_time(text: &[u8]) -> Option<Moment>
    ensures { moment_found result ≡ moments.moment_of_date_time text.now }
{
    if !begins_date_time(text) {
        return None;
    }
    let (_, behind) = text.split_at(19);
    let (nanos, zone) = fraction_of(behind);
    moment_of_parts(day_at_front(text), second_at_front(text), nanos, zone)
}

/// The day of a text YYYY-MM-DD.
fn moment_of_date(text: &[u8]) -> Option<Moment>
    ensures { moment_found result ≡ moments.moment_of_date text.now }
{
    if has_form(b"0000-00-00", text) {
        let day = day_at_front(text)?;
        Some(Moment::Day { day })
    } else {
        None
    }
}

/// The moment of a lexical form and the IRI of a datatype. There is one exactly where the datatype
/// is xsd:dateTime or xsd:date and the text is of its grammar, with a year from 0001 to 9999, an
/// hour of at most 23, at most nine digits of a second's fraction, and for a date no zone (XML
/// Schema 1.1 Datatypes, sections 3.3.7 and 3.3.9). Blanks are not dropped. A moment with a zone
/// has the zone's offset taken away, so that two spellings of one instant read the same.
pub fn read(lexical: &[u8], datatype: &[u8]) -> Option<Moment>
    ensures { moment_found result ≡ moments.moment_of lexical.now datatype.now }
{
    if datatype == b"http://www.w3.org/2001/XMLSchema#dateTime".as_slice() {
        moment_of_date_time(lexical)
    } else if datatype == b"http://www.w3.org/2001/XMLSchema#date".as_slice() {
        moment_of_date(lexical)
    } else {
        None
    }
}
