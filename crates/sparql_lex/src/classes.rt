//! Classes of characters of the terminals (SPARQL 1.1, section 19.8).

ghost use Rattle.std.specs.Prelude.{◌≡◌};
ghost use Rattle.term_core.specs.Characters as characters;
ghost use Rattle.term_core.specs.Terminals as terminals;
ghost use Rattle.term_core.specs.Tokens as spec;
ghost use Rattle.term_core.specs.Names as names;

use term_core::{is_pn, is_pn_u};

/// A to Z, a to z.
pub fn is_letter(c: char) -> bool
    ensures { result ≡ characters.is_letter c }
{
    matches!(c, 'A'..='Z' | 'a'..='z')
}

/// 0 to 9.
pub fn is_digit(c: char) -> bool
    ensures { result ≡ characters.is_digit c }
{
    matches!(c, '0'..='9')
}

/// A hexadecimal digit in either case (HEX).
pub fn is_hex(c: char) -> bool
    ensures { result ≡ characters.is_hex c }
{
    matches!(c, '0'..='9' | 'A'..='F' | 'a'..='f')
}

/// A letter or a digit.
pub fn is_alphanumeric(c: char) -> bool
    ensures { result ≡ names.is_alphanumeric c }
{
    is_letter(c) || is_digit(c)
}

/// What may follow in a word.
pub fn is_word_part(c: char) -> bool
    ensures { result ≡ terminals.is_word_part c }
{
    is_letter(c) || is_digit(c) || c == '_'
}

/// What may stand in a string between two such quotes without an escape (STRING_LITERAL1).
pub fn is_plain_in(quote: char, c: char) -> bool
    ensures { result ≡ terminals.is_plain_in quote c }
{
    !(c == quote || matches!(c, '\\' | '\n' | '\r'))
}

/// What may stand in a string between three and three such quotes without an escape, but for the
/// quote (STRING_LITERAL_LONG1).
pub fn is_long_plain(quote: char, c: char) -> bool
    ensures { result ≡ terminals.is_long_plain quote c }
{
    !(c == quote || c == '\\')
}

/// What a local name may hold but for dots and escapes (PN_LOCAL).
pub fn is_local_part(c: char) -> bool
    ensures { result ≡ terminals.is_local_part c }
{
    is_pn(c) || c == ':'
}

/// What a backslash may stand before in a local name (PN_LOCAL_ESC).
pub fn is_local_escape(c: char) -> bool
    ensures { result ≡ terminals.is_local_escape c }
{
    matches!(
        c,
        '_' | '~'
            | '.'
            | '-'
            | '!'
            | '$'
            | '&'
            | '\''
            | '('
            | ')'
            | '*'
            | '+'
            | ','
            | ';'
            | '='
            | '/'
            | '?'
            | '#'
            | '@'
            | '%'
    )
}

/// How a label of a blank node and the name of a variable may begin (BLANK_NODE_LABEL, VARNAME).
pub fn is_label_first(c: char) -> bool
    ensures { result ≡ terminals.is_query_label_first c }
{
    is_pn_u(c) || is_digit(c)
}

/// How the name of a variable may go on (VARNAME).
pub fn is_variable_part(c: char) -> bool
    ensures { result ≡ terminals.is_variable_part c }
{
    is_pn_u(c)
        || matches!(c, '0'..='9' | '\u{b7}' | '\u{300}'..='\u{36f}' | '\u{203f}'..='\u{2040}')
}

/// Space, tab, LF and CR (WS).
pub fn is_space(c: char) -> bool
    ensures { result ≡ spec.is_space c }
{
    matches!(c, ' ' | '\t' | '\n' | '\r')
}

/// What a comment may hold (SPARQL 1.1, section 19.4).
pub fn is_in_line(c: char) -> bool
    ensures { result ≡ spec.is_in_line c }
{
    !matches!(c, '\n' | '\r')
}
