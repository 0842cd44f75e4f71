//! Classes of characters, schemes and escapes, as N-Triples and SPARQL share them (RDF 1.1 N-Triples, section 7; SPARQL
//! 1.1, section 19.8).

ghost use Rattle.std.specs.Prelude.{◌≡◌, ◌==◌};
ghost use Rattle.term_core.specs.Characters.{is_pn_base, is_pn_u, is_pn, is_iri, after, begins};
ghost use Rattle.term_core.specs.Names.{is_scheme, has_scheme};
ghost use Rattle.term_core.specs.Escapes.{echar_value};

/// Whether a name may begin with the character: a letter of any script (SPARQL 1.1, section 19.8,
/// PN_CHARS_BASE).
#[tactic(auto, unfolding(crate::specs::Characters::is_pn_base))]
pub fn is_pn_base(c: char) -> bool
    ensures { result ≡ is_pn_base c }
{
    matches!(
        c,
        'A'..='Z'
            | 'a'..='z'
            | '\u{c0}'..='\u{d6}'
            | '\u{d8}'..='\u{f6}'
            | '\u{f8}'..='\u{2ff}'
            | '\u{370}'..='\u{37d}'
            | '\u{37f}'..='\u{1fff}'
            | '\u{200c}'..='\u{200d}'
            | '\u{2070}'..='\u{218f}'
            | '\u{2c00}'..='\u{2fef}'
            | '\u{3001}'..='\u{d7ff}'
            | '\u{f900}'..='\u{fdcf}'
            | '\u{fdf0}'..='\u{fffd}'
            | '\u{10000}'..='\u{effff}'
    )
}

/// Whether it is such a letter or `_` (SPARQL 1.1, section 19.8, PN_CHARS_U).
#[tactic(auto, unfolding(crate::specs::Characters::is_pn_u))]
pub fn is_pn_u(c: char) -> bool
    ensures { result ≡ is_pn_u c }
{
    is_pn_base(c) || c == '_'
}

/// Whether it may stand in a name behind the first character: such a letter, `_`, `-`, a digit or a
/// mark (SPARQL 1.1, section 19.8, PN_CHARS).
#[tactic(auto, unfolding(crate::specs::Characters::is_pn))]
pub fn is_pn(c: char) -> bool
    ensures { result ≡ is_pn c }
{
    is_pn_u(c)
        || c == '-'
        || matches!(c, '0'..='9' | '\u{b7}' | '\u{300}'..='\u{36f}' | '\u{203f}'..='\u{2040}')
}

/// Whether a character may stand in an IRI as it is: it is above U+0020 and none of `< > " { } | ^`, backtick and
/// backslash (RDF 1.1 N-Triples, section 7, IRIREF).
pub fn is_iri(c: char) -> bool
    ensures { result ≡ is_iri c }
{
    c > ' ' && !matches!(c, '<' | '>' | '"' | '{' | '}' | '|' | '^' | '`' | '\\')
}

/// Whether a byte may stand in a scheme behind its first letter: an ASCII letter or digit, `+`, `-` or `.` (RFC 3986,
/// section 3.1).
pub fn is_scheme(byte: u8) -> bool
    ensures { result ≡ is_scheme byte }
{
    byte.is_ascii_alphabetic() || byte.is_ascii_digit() || matches!(byte, b'+' | b'-' | b'.')
}

/// Whether a colon stands behind the longest front that may stand in a scheme.
fn colon_follows(text: &[u8]) -> bool
    ensures { result ≡ begins (λ d. d == 58) (after is_scheme text.now) }
{
    for byte in text {
        if !is_scheme(*byte) {
            return *byte == b':';
        }
    }
    false
}

/// Whether an IRI begins with a scheme and a colon, as one that is not relative does (RFC 3986,
/// section 3.1).
pub fn has_scheme(iri: &[u8]) -> bool
    ensures { result ≡ has_scheme iri.now }
{
    match iri {
        [first, more @ ..] => first.is_ascii_alphabetic() && colon_follows(more),
        [] => false,
    }
}

/// The character that a letter behind a backslash stands for (RDF 1.1 N-Triples, section 7, ECHAR); None where it
/// stands for none.
pub fn unescaped(letter: char) -> Option<char>
    ensures { result ≡ echar_value letter }
{
    match letter {
        't' => Some('\t'),
        'b' => Some('\u{8}'),
        'n' => Some('\n'),
        'r' => Some('\r'),
        'f' => Some('\u{c}'),
        '"' => Some('"'),
        '\'' => Some('\''),
        '\\' => Some('\\'),
        _ => None,
    }
}
