// The numbers that lengths write.
ghost use Rattle.std.specs.Prelude.{◌≡◌, ◌+◌, ◌*◌, ◌-◌, ◌^◌, Some, None, true, false, IfSome, min};
ghost use Rattle.std.specs.Char.{is_ascii_digit};
ghost use Rattle.std.specs.Str.Parse.{digits_value};
ghost use Rattle.http_core.specs.Fields.{are_digits, number_of};

/// One digit more. Past 2^64 - 1 the number stays there.
fn add_digit(total: u64, digit: u8) -> u64
    requires { is_ascii_digit digit ≡ true }
    ensures { result ≡ min (total * 10 + (digit - 48)) (2 ^ 64 - 1) }
{
    total
        .saturating_mul(10)
        .saturating_add(u64::from(digit - b'0'))
}

/// The number that the bytes write, where each is a digit.
fn digits(text: &[u8]) -> Option<u64>
    ensures some { IfSome result (λ number. (are_digits text.now ≡ true)
        × (number ≡ min (digits_value 10 text.now) (2 ^ 64 - 1))) }
    ensures none { result ≡ None → are_digits text.now ≡ false }
{
    let mut total = 0u64;
    'digits: for c in text {
        if !c.is_ascii_digit() {
            return None;
        }
        total = add_digit(total, *c);
    }
    Some(total)
}

/// The number that one digit or more write. All past 2^64 - 1 count as that.
pub fn number(text: &[u8]) -> Option<u64>
    ensures { result ≡ number_of text.now }
{
    if text.is_empty() {
        return None;
    }
    digits(text)
}
