//! Words of the query language that are leaves of its trees: comparisons, aggregates and functions.

/// How two operands are compared (SPARQL 1.1, section 17.3).
#[derive(Clone, Copy, Debug, PartialEq, Eq)]
pub enum CompareOp {
    /// `=`
    Eq,
    /// `!=`
    Ne,
    /// `<`
    Lt,
    /// `>`
    Gt,
    /// `<=`
    Le,
    /// `>=`
    Ge,
}

/// Which aggregate (SPARQL 1.1, section 18.5.1).
#[derive(Clone, Copy, Debug, PartialEq, Eq)]
pub enum AggregateKind {
    Count,
    Sum,
    Avg,
    Min,
    Max,
}

/// Which function (SPARQL 1.1, section 17.4).
#[derive(Clone, Copy, Debug, PartialEq, Eq)]
pub enum Function {
    /// Of one variable.
    Bound,
    /// Of two terms.
    SameTerm,
    /// Also written `ISURI`. Of one.
    IsIri,
    /// Of one.
    IsBlank,
    /// Of one.
    IsLiteral,
    /// Of one.
    IsNumeric,
    /// Of a condition and two others.
    If,
    /// Of any number.
    Coalesce,
    /// Of one.
    Str,
    /// Of one.
    Lang,
    /// Of one.
    Datatype,
    /// Of one.
    StrLen,
    /// Of two.
    StrStarts,
    /// Of two.
    StrEnds,
    /// Of two.
    Contains,
    /// Of any number.
    Concat,
    /// Of one.
    Abs,
}
