//! Parts of a token's text: what stands between its marks, and what a prefix is.

ghost use Rattle.std.specs.Prelude.{◌≡◌, ◌==◌, ℕ};
ghost use Rattle.std.specs.List.{slice_range};
ghost use Rattle.sparql_symbol.specs.Reading as spec;
ghost use Rattle.sparql_symbol.specs.Reading.{StandsIn, IsFramed, before_colon, behind_colon};

use term_core::Token;

/// The text of a token.
pub fn spelling(text: &str, token: Token) -> &str
    requires { StandsIn text.now token }
    ensures { result.now ≡ slice_range text.now token.from token.to }
{
    &text[token.from..token.to]
}

/// What stands between so many bytes at the front and so many at the end.
pub fn within(text: &str, front: usize, back: usize) -> &str
    requires { IsFramed text.now front back }
    ensures { result.now ≡ spec.within front back text.now }
{
    &text[front..text.len() - back]
}

/// What stands in front of the first colon and behind it: all and nothing where there is none.
pub fn split_colon(text: &str) -> (&str, &str)
    ensures before { result.0.now ≡ before_colon text.now }
    ensures behind { result.1.now ≡ behind_colon text.now }
{
    for (i, byte) in text.as_bytes().iter().enumerate() {
        if *byte == b':' {
            return (&text[..i], &text[i + 1..]);
        }
    }
    (text, "")
}

/// How many quotes open a string.
pub fn quotes_of(text: &[u8]) -> usize
    ensures { result ≡ spec.quotes_of text.now }
{
    match text {
        [a, b, c, ..] => { if *a == *b && *b == *c { 3 } else { 1 } }
        _ => 1,
    }
}
