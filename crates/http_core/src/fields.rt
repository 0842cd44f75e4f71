// The fields of a head, as spans of the bytes that it was read from.
ghost use Rattle.std.specs.Prelude.{◌≡◌, ◌≤◌, All, length, map, option_map};
ghost use Rattle.httparse.specs.Spans.{IsHeaderWithin, header_bytes};
ghost use Rattle.http_core.specs.Fields as field;

use httparse::spans::HeaderSpan;

fn same_name(a: &[u8], b: &[u8]) -> bool
    ensures { result ≡ field.same_name a.now b.now }
{
    a.eq_ignore_ascii_case(b)
}

/// The value of the first field of that name.
pub fn find_value<'b>(
    buf: &'b [u8],
    len: usize,
    fields: &[HeaderSpan],
    name: &[u8],
) -> Option<&'b [u8]>
    requires within { All (IsHeaderWithin len) fields.now }
    requires len { len ≤ length buf.now }
    ensures { option_map (λ value. value.now) result
        ≡ field.first_value name.now (map (header_bytes buf.now) fields.now) }
{
    for field in fields {
        if same_name(field.name.of(buf), name) {
            return Some(field.value.of(buf));
        }
    }
    None
}

/// Whether each field of that name has that value.
pub fn all_are(buf: &[u8], len: usize, fields: &[HeaderSpan], name: &[u8], value: &[u8]) -> bool
    requires within { All (IsHeaderWithin len) fields.now }
    requires len { len ≤ length buf.now }
    ensures { result ≡ field.all_are name.now value.now (map (header_bytes buf.now) fields.now) }
{
    for field in fields {
        if same_name(field.name.of(buf), name) && field.value.of(buf) != value {
            return false;
        }
    }
    true
}

/// Whether a field of that name has that value in any case.
pub fn has_value(buf: &[u8], len: usize, fields: &[HeaderSpan], name: &[u8], value: &[u8]) -> bool
    requires within { All (IsHeaderWithin len) fields.now }
    requires len { len ≤ length buf.now }
    ensures { result ≡ field.has_value name.now value.now (map (header_bytes buf.now) fields.now) }
{
    for field in fields {
        if same_name(field.name.of(buf), name) && same_name(field.value.of(buf), value) {
            return true;
        }
    }
    false
}

/// Whether a field has that name.
pub fn has_field(buf: &[u8], len: usize, fields: &[HeaderSpan], name: &[u8]) -> bool
    requires within { All (IsHeaderWithin len) fields.now }
    requires len { len ≤ length buf.now }
    ensures { result ≡ field.has_field name.now (map (header_bytes buf.now) fields.now) }
{
    for field in fields {
        if same_name(field.name.of(buf), name) {
            return true;
        }
    }
    false
}
