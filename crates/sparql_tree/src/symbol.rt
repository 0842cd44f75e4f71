//! What a token is to the grammar.

use crate::words::{AggregateKind, Function};
use term_core::Text;

/// What a token is to the grammar (SPARQL 1.1, section 19.8). Keywords are read without case, but for
/// the verb `a`.
#[derive(Clone, Copy, Debug, PartialEq, Eq)]
pub enum Shape {
    /// An IRI with a scheme, written out or by a declared prefix.
    Iri,
    /// A blank node.
    Blank,
    /// A variable.
    Var,
    /// A string in quotes.
    Quoted,
    /// A language tag.
    Tag,
    /// A number of datatype xsd:integer.
    Integer,
    /// A number of datatype xsd:decimal.
    Decimal,
    /// `true` or `false`.
    Boolean,
    /// A function's name.
    Function(Function),
    /// An aggregate's name.
    Aggregate(AggregateKind),
    /// The verb `a`, in lower case alone.
    IsA,
    Select,
    Distinct,
    Reduced,
    Where,
    Group,
    By,
    Having,
    Order,
    Asc,
    Desc,
    Limit,
    Offset,
    Optional,
    /// The keyword `MINUS`.
    Without,
    Filter,
    Bind,
    As,
    Values,
    Undef,
    Union,
    /// The keyword `NOT`.
    Not,
    In,
    /// `^^`
    Typed,
    /// `&&`
    And,
    /// `||`
    Or,
    /// `{`
    OpenBrace,
    /// `}`
    CloseBrace,
    /// `(`
    Open,
    /// `)`
    Close,
    /// `.`
    Point,
    /// `,`
    Comma,
    /// `;`
    Semicolon,
    /// `=`
    Equal,
    /// `!=`
    Unequal,
    /// `<`
    Less,
    /// `>`
    Greater,
    /// `<=`
    AtMost,
    /// `>=`
    AtLeast,
    /// `!`
    Bang,
    /// `+`
    Plus,
    /// `-`
    Minus,
    /// `*`
    Star,
    /// `/`
    Slash,
    /// A token that stands in no rule: an IRI without a scheme, a name whose prefix is not declared, any
    /// other word or sign.
    Other,
}

/// A token as the grammar sees it, and its value: the IRI; a label without `_:`; a variable's name
/// without its mark; a string's characters; a tag in lower case without `@`; a number as it is written;
/// `true` or `false` in lower case. All escapes are undone, and a declared prefix is written out. Every other
/// symbol has the empty text.
#[derive(Debug, Drop)]
pub struct Symbol {
    pub shape: Shape,
    pub value: Text,
}
