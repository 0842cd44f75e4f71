//! Moments and their order.

ghost use Rattle.std.specs.Prelude.{◌≡◌};
ghost use Rattle.term_core.specs.Moments as moments;
ghost use Rattle.xsd_time.specs.Values.{moment_in};

use std::cmp::Ordering;

/// A value of xsd:dateTime or xsd:date.
#[derive(Clone, Copy, Debug, PartialEq, Eq)]
pub enum Moment {
    /// A dateTime with a zone, in nanoseconds from 1970-01-01T00:00:00Z (XML Schema 1.1 Datatypes,
    /// section 3.3.7).
    Instant { nanos: i128 },
    /// A dateTime without a zone, in nanoseconds from 1970-01-01T00:00:00 of its own clock.
    Local { nanos: i128 },
    /// A date, in days from 1970-01-01 (XML Schema 1.1 Datatypes, section 3.3.9).
    Day { day: i64 },
}

/// The order of two moments of one variant, by the number. None exactly where the variants differ.
pub fn cmp(a: Moment, b: Moment) -> Option<Ordering>
    ensures { result ≡ moments.moment_cmp (moment_in a) (moment_in b) }
{
    match (a, b) {
        (Moment::Instant { nanos: a }, Moment::Instant { nanos: b }) => Some(a.cmp(&b)),
        (Moment::Local { nanos: a }, Moment::Local { nanos: b }) => Some(a.cmp(&b)),
        (Moment::Day { day: a }, Moment::Day { day: b }) => Some(a.cmp(&b)),
        _ => None,
    }
}
