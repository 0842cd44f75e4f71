//! What is known of a token of which the characters so far were read.

ghost use Rattle.std.specs.Prelude.{◌≡◌};
ghost use Rattle.sparql_lex.specs.Steps as spec;

use term_core::Kind;

/// How far a token is read. Characters lead from one state to the next, and in some states what was
/// read is a token.
#[derive(Clone, Copy, Debug, PartialEq, Eq)]
pub enum State {
    /// Before the first character.
    Start,
    Mark(Mark),
    Name(Name),
    Label(Label),
    Variable(Variable),
    Number(Number),
    Tag(Tag),
    Quoted(Quoted),
}

/// In a sign.
#[derive(Clone, Copy, Debug, PartialEq, Eq)]
pub enum Mark {
    /// Behind a character that is a sign alone, or not, and one together with `second`.
    First { alone: bool, second: char },
    /// A sign that no character makes longer.
    End,
}

/// In a word or a prefixed name.
#[derive(Clone, Copy, Debug, PartialEq, Eq)]
pub enum Name {
    /// Letters, digits and `_`: a word, or the front of a prefix.
    Word,
    /// In a prefix that is no word.
    Prefix,
    /// Behind a dot in a prefix.
    PrefixDot,
    /// Behind the colon.
    Colon,
    /// In the local name.
    Local,
    /// Behind a dot in the local name.
    LocalDot,
    /// Behind `%` in the local name.
    Percent,
    /// Behind `%` and one digit.
    PercentDigit,
    /// Behind a backslash in the local name.
    Backslash,
}

/// In a label of a blank node.
#[derive(Clone, Copy, Debug, PartialEq, Eq)]
pub enum Label {
    Underscore,
    Colon,
    Part,
    Dot,
}

/// In a variable.
#[derive(Clone, Copy, Debug, PartialEq, Eq)]
pub enum Variable {
    /// Behind `?`, which is also a sign.
    Question,
    /// Behind `$`.
    Dollar,
    Part,
}

/// In a number.
#[derive(Clone, Copy, Debug, PartialEq, Eq)]
pub enum Number {
    /// Behind a point without digits before it, which is also a sign.
    Dot,
    Integer,
    /// Behind digits and a point.
    Point,
    Decimal,
    /// Behind `e` or `E`.
    Exponent,
    /// Behind the sign of an exponent.
    ExponentSign,
    Double,
}

/// In a language tag.
#[derive(Clone, Copy, Debug, PartialEq, Eq)]
pub enum Tag {
    At,
    Primary,
    Hyphen,
    Subtag,
}

/// What is between brackets or quotes.
#[derive(Clone, Copy, Debug, PartialEq, Eq)]
pub enum Body {
    Iri,
    /// The string ends at the next quote.
    Short { quote: char },
    /// The string ends at the next three quotes.
    Long { quote: char },
}

/// In an IRI or a string.
#[derive(Clone, Copy, Debug, PartialEq, Eq)]
pub enum Quoted {
    /// Behind `<`, which is also a sign.
    Less,
    /// Behind `<=`, which is also a sign.
    LessEqual,
    /// Behind one quote.
    Quote { quote: char },
    /// Behind two quotes, which are also an empty string.
    TwoQuotes { quote: char },
    Inside { body: Body },
    /// In a long string, behind one quote.
    OneInside { quote: char },
    /// In a long string, behind two quotes.
    TwoInside { quote: char },
    /// Behind a backslash.
    Backslash { body: Body },
    /// In an escape, before `left` more digits, of which the earlier ones spell `value`.
    Digits { body: Body, left: u8, value: u32 },
    /// An IRI or a string that no character makes longer.
    End { kind: Kind },
}

/// What the characters that led to the state are, if they are a token.
pub fn kind_of(state: State) -> Option<Kind>
    ensures { result ≡ spec.kind_of state }
{
    match state {
        State::Start => None,
        State::Mark(Mark::First { alone, .. }) => if alone { Some(Kind::Sign) } else { None },
        State::Mark(Mark::End) => Some(Kind::Sign),
        State::Name(Name::Word) => Some(Kind::Word),
        State::Name(Name::Colon) => Some(Kind::PName),
        State::Name(Name::Local) => Some(Kind::PName),
        State::Name(_) => None,
        State::Label(Label::Part) => Some(Kind::Blank),
        State::Label(_) => None,
        State::Variable(Variable::Question) => Some(Kind::Sign),
        State::Variable(Variable::Dollar) => None,
        State::Variable(Variable::Part) => Some(Kind::Var),
        State::Number(Number::Dot) => Some(Kind::Sign),
        State::Number(Number::Integer) => Some(Kind::Integer),
        State::Number(Number::Decimal) => Some(Kind::Decimal),
        State::Number(Number::Double) => Some(Kind::Double),
        State::Number(_) => None,
        State::Tag(Tag::Primary) => Some(Kind::Lang),
        State::Tag(Tag::Subtag) => Some(Kind::Lang),
        State::Tag(_) => None,
        State::Quoted(Quoted::Less) => Some(Kind::Sign),
        State::Quoted(Quoted::LessEqual) => Some(Kind::Sign),
        State::Quoted(Quoted::TwoQuotes { .. }) => Some(Kind::String),
        State::Quoted(Quoted::End { kind }) => Some(kind),
        State::Quoted(_) => None,
    }
}
