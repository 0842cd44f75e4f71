//! The fields of lexical forms: fixed forms, and the numbers that digits write.

ghost use Rattle.std.specs.Prelude.{◌≡◌, ◌+◌, ◌*◌, ◌^◌, ◌≤◌, ◌<◌, length, true};
ghost use Rattle.term_core.specs.Characters.{is_digit, front, after};
ghost use Rattle.term_core.specs.Numbers.{digits_value};
ghost use Rattle.term_core.specs.Moments as moments;

/// Whether a character suits a form's: a digit where the form has a 0, and else the same.
fn suits(form: u8, c: u8) -> bool
    ensures { result ≡ moments.suits form c }
{
    if form == b'0' {
        c.is_ascii_digit()
    } else {
        c == form
    }
}

/// Whether a text has a form: a digit where the form has a 0, and elsewhere the form's own
/// character.
pub fn has_form(form: &[u8], text: &[u8]) -> bool
    ensures exact { result ≡ moments.has_form form.now text.now }
    ensures long { result ≡ true → length text.now ≡ length form.now }
{
    if text.len() != form.len() {
        return false;
    }
    for i in 0..form.len() {
        if !suits(form[i], text[i]) {
            return false;
        }
    }
    true
}

/// The number that at most nine digits write.
pub fn digits_value(digits: &[u8]) -> u64
    requires { length digits.now ≤ 9 }
    ensures exact { result ≡ digits_value digits.now }
    ensures bound { result < 23 * 10 ^ length digits.now }
{
    let mut value: u64 = 0;
    for digit in digits {
        value = value * 10 + digit.saturating_sub(b'0') as u64;
    }
    value
}

/// The number that at most nine digits write from a place on.
pub fn number_at(place: usize, count: usize, text: &[u8]) -> u64
    requires within { place + count ≤ length text.now }
    requires few { count ≤ 9 }
    ensures exact { result ≡ moments.number_at place count text.now }
{
    digits_value(&text[place..place + count])
}

/// The digits in front of a text, and what is behind them.
pub fn split_digits(text: &[u8]) -> (&[u8], &[u8])
    ensures digits { result.0.now ≡ front is_digit text.now }
    ensures rest { result.1.now ≡ after is_digit text.now }
{
    for (i, c) in text.iter().enumerate() {
        if !c.is_ascii_digit() {
            return (&text[..i], &text[i..]);
        }
    }
    text.split_at(text.len())
}
