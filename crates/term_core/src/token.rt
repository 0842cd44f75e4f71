//! Tokens of a query text (SPARQL 1.1, section 19.8).

/// What a token is, by the terminals of SPARQL 1.1, section 19.8.
#[derive(Clone, Copy, Debug, PartialEq, Eq)]
pub enum Kind {
    /// An IRI in `<` and `>` (IRIREF).
    Iri,
    /// A prefixed name, or a prefix with its colon alone (PNAME_LN, PNAME_NS).
    PName,
    /// A label of a blank node, with its `_:` (BLANK_NODE_LABEL).
    Blank,
    /// A variable, with its `?` or `$` (VAR1, VAR2).
    Var,
    /// A string in quotes of any of the four forms (STRING_LITERAL1, STRING_LITERAL2,
    /// STRING_LITERAL_LONG1, STRING_LITERAL_LONG2).
    String,
    /// A language tag, with its `@` (LANGTAG).
    Lang,
    /// Digits (INTEGER).
    Integer,
    /// Digits with a point and a digit behind it (DECIMAL).
    Decimal,
    /// A number with an exponent (DOUBLE).
    Double,
    /// A keyword, `a`, or a name of a function: a letter, then letters, digits and `_`.
    Word,
    /// An operator or a mark of punctuation; the text tells which.
    Sign,
}

/// A token, and where it stands: the bytes from `from` up to `to`, the latter not counted.
#[derive(Clone, Copy, Debug, PartialEq, Eq)]
pub struct Token {
    pub kind: Kind,
    pub from: usize,
    pub to: usize,
}
