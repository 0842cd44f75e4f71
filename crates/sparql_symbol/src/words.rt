//! The words and signs of a query, and what each is to the grammar (SPARQL 1.1, section 19.8).

ghost use Rattle.std.specs.Prelude.{◌≡◌};
ghost use Rattle.std.specs.Str.{bytes_eq};
ghost use Rattle.sparql_tree.specs.Words as spec;
ghost use Rattle.sparql_tree.specs.Words.{first_row, word_in, is_one_of};
ghost use Rattle.sparql_tree.specs.Words.{clause_words, pattern_words, term_functions, value_functions, marks, operators};
ghost use Rattle.sparql_tree.specs.Words.{query_forms, updates, number_functions, string_functions, time_functions, making_functions};

use sparql_tree::{AggregateKind, Function, Shape};

/// Whether two texts are one word, read without case.
pub fn is_word(text: &[u8], word: &[u8]) -> bool
    ensures { result ≡ spec.is_word text.now word.now }
{
    text.eq_ignore_ascii_case(word)
}

/// The words of a query's clauses.
fn clause_word(text: &[u8]) -> Option<Shape>
    ensures { result ≡ word_in clause_words text.now }
{
    if is_word(text, b"SELECT") {
        Some(Shape::Select)
    } else if is_word(text, b"DISTINCT") {
        Some(Shape::Distinct)
    } else if is_word(text, b"REDUCED") {
        Some(Shape::Reduced)
    } else if is_word(text, b"WHERE") {
        Some(Shape::Where)
    } else if is_word(text, b"GROUP") {
        Some(Shape::Group)
    } else if is_word(text, b"BY") {
        Some(Shape::By)
    } else if is_word(text, b"HAVING") {
        Some(Shape::Having)
    } else if is_word(text, b"ORDER") {
        Some(Shape::Order)
    } else if is_word(text, b"ASC") {
        Some(Shape::Asc)
    } else if is_word(text, b"DESC") {
        Some(Shape::Desc)
    } else if is_word(text, b"LIMIT") {
        Some(Shape::Limit)
    } else if is_word(text, b"OFFSET") {
        Some(Shape::Offset)
    } else {
        None
    }
}

/// The words of group graph patterns and of operators.
fn pattern_word(text: &[u8]) -> Option<Shape>
    ensures { result ≡ word_in pattern_words text.now }
{
    if is_word(text, b"OPTIONAL") {
        Some(Shape::Optional)
    } else if is_word(text, b"MINUS") {
        Some(Shape::Without)
    } else if is_word(text, b"FILTER") {
        Some(Shape::Filter)
    } else if is_word(text, b"BIND") {
        Some(Shape::Bind)
    } else if is_word(text, b"AS") {
        Some(Shape::As)
    } else if is_word(text, b"VALUES") {
        Some(Shape::Values)
    } else if is_word(text, b"UNDEF") {
        Some(Shape::Undef)
    } else if is_word(text, b"UNION") {
        Some(Shape::Union)
    } else if is_word(text, b"NOT") {
        Some(Shape::Not)
    } else if is_word(text, b"IN") {
        Some(Shape::In)
    } else {
        None
    }
}

/// The functions on terms.
fn term_function(text: &[u8]) -> Option<Shape>
    ensures { result ≡ word_in term_functions text.now }
{
    if is_word(text, b"BOUND") {
        Some(Shape::Function(Function::Bound))
    } else if is_word(text, b"SAMETERM") {
        Some(Shape::Function(Function::SameTerm))
    } else if is_word(text, b"ISIRI") {
        Some(Shape::Function(Function::IsIri))
    } else if is_word(text, b"ISURI") {
        Some(Shape::Function(Function::IsIri))
    } else if is_word(text, b"ISBLANK") {
        Some(Shape::Function(Function::IsBlank))
    } else if is_word(text, b"ISLITERAL") {
        Some(Shape::Function(Function::IsLiteral))
    } else if is_word(text, b"ISNUMERIC") {
        Some(Shape::Function(Function::IsNumeric))
    } else if is_word(text, b"IF") {
        Some(Shape::Function(Function::If))
    } else if is_word(text, b"COALESCE") {
        Some(Shape::Function(Function::Coalesce))
    } else if is_word(text, b"STR") {
        Some(Shape::Function(Function::Str))
    } else if is_word(text, b"LANG") {
        Some(Shape::Function(Function::Lang))
    } else if is_word(text, b"DATATYPE") {
        Some(Shape::Function(Function::Datatype))
    } else {
        None
    }
}

/// The functions on strings and numbers, and the aggregates.
fn value_function(text: &[u8]) -> Option<Shape>
    ensures { result ≡ word_in value_functions text.now }
{
    if is_word(text, b"STRLEN") {
        Some(Shape::Function(Function::StrLen))
    } else if is_word(text, b"STRSTARTS") {
        Some(Shape::Function(Function::StrStarts))
    } else if is_word(text, b"STRENDS") {
        Some(Shape::Function(Function::StrEnds))
    } else if is_word(text, b"CONTAINS") {
        Some(Shape::Function(Function::Contains))
    } else if is_word(text, b"CONCAT") {
        Some(Shape::Function(Function::Concat))
    } else if is_word(text, b"ABS") {
        Some(Shape::Function(Function::Abs))
    } else if is_word(text, b"COUNT") {
        Some(Shape::Aggregate(AggregateKind::Count))
    } else if is_word(text, b"SUM") {
        Some(Shape::Aggregate(AggregateKind::Sum))
    } else if is_word(text, b"AVG") {
        Some(Shape::Aggregate(AggregateKind::Avg))
    } else if is_word(text, b"MIN") {
        Some(Shape::Aggregate(AggregateKind::Min))
    } else if is_word(text, b"MAX") {
        Some(Shape::Aggregate(AggregateKind::Max))
    } else {
        None
    }
}

/// The verb `a`, in lower case alone, and the truth values.
fn other_word(text: &[u8]) -> Option<Shape>
    ensures { result ≡ spec.other_word text.now }
{
    if text == b"a".as_slice() {
        Some(Shape::IsA)
    } else if is_word(text, b"true") || is_word(text, b"false") {
        Some(Shape::Boolean)
    } else {
        None
    }
}

/// What a word is to the grammar.
pub fn word_shape(text: &[u8]) -> Shape
    ensures { result ≡ spec.word_shape text.now }
{
    if let Some(shape) = clause_word(text) {
        return shape;
    }
    if let Some(shape) = pattern_word(text) {
        return shape;
    }
    if let Some(shape) = term_function(text) {
        return shape;
    }
    if let Some(shape) = value_function(text) {
        return shape;
    }
    other_word(text).unwrap_or(Shape::Other)
}

/// The marks of punctuation.
fn mark(text: &[u8]) -> Option<Shape>
    ensures { result ≡ first_row (bytes_eq text.now) marks }
{
    if text == b"{".as_slice() {
        Some(Shape::OpenBrace)
    } else if text == b"}".as_slice() {
        Some(Shape::CloseBrace)
    } else if text == b"(".as_slice() {
        Some(Shape::Open)
    } else if text == b")".as_slice() {
        Some(Shape::Close)
    } else if text == b".".as_slice() {
        Some(Shape::Point)
    } else if text == b",".as_slice() {
        Some(Shape::Comma)
    } else if text == b";".as_slice() {
        Some(Shape::Semicolon)
    } else if text == b"^^".as_slice() {
        Some(Shape::Typed)
    } else {
        None
    }
}

/// The operators of expressions.
fn operator(text: &[u8]) -> Option<Shape>
    ensures { result ≡ first_row (bytes_eq text.now) operators }
{
    if text == b"=".as_slice() {
        Some(Shape::Equal)
    } else if text == b"!=".as_slice() {
        Some(Shape::Unequal)
    } else if text == b"<".as_slice() {
        Some(Shape::Less)
    } else if text == b">".as_slice() {
        Some(Shape::Greater)
    } else if text == b"<=".as_slice() {
        Some(Shape::AtMost)
    } else if text == b">=".as_slice() {
        Some(Shape::AtLeast)
    } else if text == b"!".as_slice() {
        Some(Shape::Bang)
    } else if text == b"+".as_slice() {
        Some(Shape::Plus)
    } else if text == b"-".as_slice() {
        Some(Shape::Minus)
    } else if text == b"*".as_slice() {
        Some(Shape::Star)
    } else if text == b"/".as_slice() {
        Some(Shape::Slash)
    } else if text == b"&&".as_slice() {
        Some(Shape::And)
    } else if text == b"||".as_slice() {
        Some(Shape::Or)
    } else {
        None
    }
}

/// What a sign is to the grammar.
pub fn sign_shape(text: &[u8]) -> Shape
    ensures { result ≡ spec.sign_shape text.now }
{
    match mark(text) {
        Some(shape) => shape,
        None => operator(text).unwrap_or(Shape::Other),
    }
}

/// Words of other forms of queries, of data sets and of services.
fn is_of_query_forms(text: &[u8]) -> bool
    ensures { result ≡ is_one_of query_forms text.now }
{
    is_word(text, b"ASK")
        || is_word(text, b"BASE")
        || is_word(text, b"CONSTRUCT")
        || is_word(text, b"DESCRIBE")
        || is_word(text, b"EXISTS")
        || is_word(text, b"FROM")
        || is_word(text, b"GRAPH")
        || is_word(text, b"NAMED")
        || is_word(text, b"SERVICE")
}

/// Words of updates.
fn is_of_updates(text: &[u8]) -> bool
    ensures { result ≡ is_one_of updates text.now }
{
    is_word(text, b"CLEAR")
        || is_word(text, b"CREATE")
        || is_word(text, b"DELETE")
        || is_word(text, b"DROP")
        || is_word(text, b"INSERT")
        || is_word(text, b"LOAD")
}

/// Aggregates and functions on numbers that are not answered.
fn is_of_numbers(text: &[u8]) -> bool
    ensures { result ≡ is_one_of number_functions text.now }
{
    is_word(text, b"CEIL")
        || is_word(text, b"FLOOR")
        || is_word(text, b"GROUP_CONCAT")
        || is_word(text, b"RAND")
        || is_word(text, b"ROUND")
        || is_word(text, b"SAMPLE")
}

/// Functions on strings that are not answered.
fn is_of_strings(text: &[u8]) -> bool
    ensures { result ≡ is_one_of string_functions text.now }
{
    is_word(text, b"ENCODE_FOR_URI")
        || is_word(text, b"LANGMATCHES")
        || is_word(text, b"LCASE")
        || is_word(text, b"REGEX")
        || is_word(text, b"REPLACE")
        || is_word(text, b"STRAFTER")
        || is_word(text, b"STRBEFORE")
        || is_word(text, b"SUBSTR")
        || is_word(text, b"UCASE")
}

/// Functions on dates and times.
fn is_of_times(text: &[u8]) -> bool
    ensures { result ≡ is_one_of time_functions text.now }
{
    is_word(text, b"DAY")
        || is_word(text, b"HOURS")
        || is_word(text, b"MINUTES")
        || is_word(text, b"MONTH")
        || is_word(text, b"NOW")
        || is_word(text, b"SECONDS")
        || is_word(text, b"TIMEZONE")
        || is_word(text, b"TZ")
        || is_word(text, b"YEAR")
}

/// Functions that make terms, and hash functions.
fn is_of_makers(text: &[u8]) -> bool
    ensures { result ≡ is_one_of making_functions text.now }
{
    is_word(text, b"BNODE")
        || is_word(text, b"IRI")
        || is_word(text, b"MD5")
        || is_word(text, b"SHA1")
        || is_word(text, b"SHA256")
        || is_word(text, b"SHA384")
        || is_word(text, b"SHA512")
        || is_word(text, b"STRDT")
        || is_word(text, b"STRLANG")
        || is_word(text, b"STRUUID")
        || is_word(text, b"URI")
        || is_word(text, b"UUID")
}

/// Whether a word is of the language and not answered.
pub fn is_unsupported_word(text: &[u8]) -> bool
    ensures { result ≡ spec.is_unsupported_word text.now }
{
    is_of_query_forms(text)
        || is_of_updates(text)
        || is_of_numbers(text)
        || is_of_strings(text)
        || is_of_times(text)
        || is_of_makers(text)
}
