//! Classes of characters, and how a text is cut by one.

ghost use Rattle.std.specs.Prelude.{◌≡◌, ◌≤◌, ◌<◌, ◌++◌, ℕ, List, length, take, drop, option_map, IfSome};
ghost use Rattle.std.specs.Str.{IsUtf8, chars, encode_utf8_all};
ghost use Rattle.term_core.specs.Characters.{front, after};
ghost use Rattle.nt_text.specs.Characters.{is_in};
ghost use Rattle.nt_text.specs.Reading.{head_at, front_before};

/// A class of characters. Each holds all or none of the characters from U+0080 on, and so all or
/// none of the bytes from 128 on.
#[derive(Clone, Copy, Debug, PartialEq, Eq)]
pub enum Class {
    /// Space and tab (RDF 1.1 N-Triples, section 7).
    Blank,
    /// What may stand in an IRI: what is above U+0020 and none of `< > " { } | ^`, backtick and
    /// backslash (RDF 1.1 N-Triples, section 7, IRIREF).
    Iri,
    /// What may stand in a string as it is: no quote, backslash, LF or CR (RDF 1.1 N-Triples,
    /// section 7, STRING_LITERAL_QUOTE).
    Plain,
    /// ASCII letters.
    Letter,
    /// What may stand in a line: no LF or CR (RDF 1.1 N-Triples, section 7, EOL).
    Line,
}

/// Whether a byte is of the class.
pub fn is_in(class: Class, byte: u8) -> bool
    ensures { result ≡ is_in class byte }
{
    match class {
        Class::Blank => matches!(byte, b' ' | b'\t'),
        Class::Iri => {
            byte > b' '
                && !matches!(
                    byte,
                    b'<' | b'>' | b'"' | b'{' | b'}' | b'|' | b'^' | b'`' | b'\\'
                )
        }
        Class::Plain => !matches!(byte, b'"' | b'\\' | b'\n' | b'\r'),
        Class::Letter => byte.is_ascii_alphabetic(),
        Class::Line => !matches!(byte, b'\n' | b'\r'),
    }
}

/// How many bytes of the text's front are of the class.
pub fn width(class: Class, bytes: &[u8]) -> usize
    ensures front { take result bytes.now ≡ front (is_in class) bytes.now }
    ensures after { drop result bytes.now ≡ after (is_in class) bytes.now }
    ensures within { result ≤ length bytes.now }
{
    for (i, byte) in bytes.iter().enumerate() {
        if !is_in(class, *byte) {
            return i;
        }
    }
    bytes.len()
}

/// Cuts a text behind its longest front that is all of the class: that front, and the rest.
pub fn span(class: Class, text: &str) -> (&str, &str)
    ensures front { chars result.0.now ≡ front (is_in class) (chars text.now) }
    ensures after { chars result.1.now ≡ after (is_in class) (chars text.now) }
    ensures utf8 { IsUtf8 result.0.now × IsUtf8 result.1.now }
    ensures shorter { length result.1.now ≤ length text.now }
{
    let at = width(class, text.as_bytes());
    (&text[..at], &text[at..])
}

/// What is behind the blanks that a text begins with.
pub fn skip_blanks(text: &str) -> &str
    ensures rest { chars result.now ≡ after (is_in Class.Blank) (chars text.now) }
    ensures shorter { length result.now ≤ length text.now }
{
    let (_, rest) = span(Class::Blank, text);
    rest
}

/// The first character and what is behind it; None where the text is empty.
#[tactic(auto, using(crate::proofs::Cut::first_char))]
pub fn split_first(text: &str) -> Option<(char, &str)>
    ensures exact { option_map (λ p. (p.0, chars p.1.now)) result ≡ head_at (chars text.now) }
    ensures shorter { IfSome result (λ p. length p.1.now < length text.now) }
{
    let mut rest = text.chars();
    match rest.next() {
        Some(c) => Some((c, rest.as_str())),
        None => None,
    }
}

/// The front of a text that the rest is behind.
pub fn before<'a>(text: &'a str, rest: &str) -> &'a str
    requires { (front : List ℕ) × (chars text.now ≡ front ++ chars rest.now) }
    ensures { result.now ≡ encode_utf8_all (front_before (chars text.now) (chars rest.now)) }
{
    &text[..text.len() - rest.len()]
}
