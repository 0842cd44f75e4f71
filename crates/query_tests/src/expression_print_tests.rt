//! Expressions and their texts, worked by hand (SPARQL 1.1, section 19.8, rules 110 to 127): a text a line, and behind
//! an arrow how its expression is printed.

use sparql_print::print_expr;
use sparql_read::read_tree;
use sparql_tree::{CompareOp, Expr, Query};
use std::alloc::{AllocError, Global};
use std::test::Fail;
use term_core::{Memory, Term, Text};

/// Variables and IRIs.
const NAMES: &str = "?a1 => ?a1
$0_b => ?0_b
?naïve => ?naïve
?変数 => ?変数
<a:b> => <a:b>
<a:\\u00E9> => <a:é>";

/// Strings.
const STRINGS: &str = "\"\" => \"\"
'it\\'s \"so\"' => \"it's \\\"so\\\"\"
\"\\t\\u00e9\\r\" => \"\té\\r\"
'a'@EN-us => \"a\"@en-us
\"a\" ^^ <b:c> => \"a\"^^<b:c>
\"a\"^^<http://www.w3.org/2001/XMLSchema#string> => \"a\"";

/// Numbers and truth values.
const NUMBERS: &str = "5 => \"5\"^^<http://www.w3.org/2001/XMLSchema#integer>
-1.50 => \"-1.50\"^^<http://www.w3.org/2001/XMLSchema#decimal>
TRUE => \"true\"^^<http://www.w3.org/2001/XMLSchema#boolean>
?a - -5 => ( ?a - \"-5\"^^<http://www.w3.org/2001/XMLSchema#integer> )
- (5) => ( - \"5\"^^<http://www.w3.org/2001/XMLSchema#integer> )";

/// Operators.
const OPERATORS: &str = "?a||?b||?c => ( ?a || ?b || ?c )
(?a||?b)||?c => ( ( ?a || ?b ) || ?c )
?a&&?b => ( ?a && ?b )
!?a => ( ! ?a )
+?a => ( + ?a )
-?a => ( - ?a )
?a=?b => ( ?a = ?b )
?a!=?b => ( ?a != ?b )
?a<?b => ( ?a < ?b )
?a>?b => ( ?a > ?b )
?a<=?b => ( ?a <= ?b )
?a>=?b => ( ?a >= ?b )
?a in (?b, <c:d>) => ( ?a IN ( ?b , <c:d> ) )
?a not in () => ( ?a NOT IN ( ) )
?a+?b-?c => ( ?a + ?b - ?c )
?a*?b/?c => ( ?a * ?b / ?c )";

/// Operators within operators.
const PRECEDENCE: &str =
    "?a || ?b && ?c = ?d + ?e * ! ?f => ( ?a || ( ?b && ( ?c = ( ?d + ( ?e * ( ! ?f ) ) ) ) ) )
(((?a || ?b)) && ?c) = ((?d + ?e) * (?f)) => ( ( ( ?a || ?b ) && ?c ) = ( ( ?d + ?e ) * ?f ) )
?a - (?b - ?c) - ?d => ( ?a - ( ?b - ?c ) - ?d )
!(!(!(-?a))) => ( ! ( ! ( ! ( - ?a ) ) ) )";

/// Calls.
const CALLS: &str = "bound(?a) => BOUND ( ?a )
sameTerm(?a, ?b) => SAMETERM ( ?a , ?b )
isURI(?a) => ISIRI ( ?a )
isBlank(?a) => ISBLANK ( ?a )
isLiteral(?a) => ISLITERAL ( ?a )
isNumeric(?a) => ISNUMERIC ( ?a )
if(?a, ?b, ?c) => IF ( ?a , ?b , ?c )
coalesce() => COALESCE ( )
str(lang(?a)) => STR ( LANG ( ?a ) )
datatype(?a) => DATATYPE ( ?a )
strlen(?a) => STRLEN ( ?a )
strStarts(?a, 'b') => STRSTARTS ( ?a , \"b\" )
strEnds(?a, 'b') => STRENDS ( ?a , \"b\" )
contains(?a, 'b') => CONTAINS ( ?a , \"b\" )
concat(?a, ?b) => CONCAT ( ?a , ?b )
abs(?a * ?b) => ABS ( ( ?a * ?b ) )";

/// Aggregates.
const AGGREGATES: &str = "count(*) => COUNT ( * )
count(distinct *) => COUNT ( DISTINCT * )
count(?a) => COUNT ( ?a )
sum(distinct ?a) => SUM ( DISTINCT ?a )
avg(?a / ?b) => AVG ( ( ?a / ?b ) )
min(?a) < max(?b) => ( MIN ( ?a ) < MAX ( ?b ) )";

/// Expressions that are built, and their texts.
const BUILT: [(&str, &str); 5] = [
    ("variable", "?a1"),
    ("string", "\"a\\\"\\\\\\n'\""),
    ("tagged", "\"\"@en"),
    ("either", "( ?a || ?b )"),
    ("compared", "( ( ?a || ?b ) <= ?c )"),
];

fn variable(alloc: Global, name: &str) -> Result<Expr, Memory> {
    Ok(Expr::Var(Text::from_str(alloc, name)?))
}

fn literal(alloc: Global, lexical: &str, datatype: &str, lang: &str) -> Result<Expr, Memory> {
    Ok(Expr::Const(Term::Literal {
        lexical: Text::from_str(alloc, lexical)?,
        datatype: Text::from_str(alloc, datatype)?,
        lang: Text::from_str(alloc, lang)?,
    }))
}

fn either(alloc: Global) -> Result<Expr, Memory> {
    let mut parts = Vec::new(alloc);
    parts.push(variable(alloc, "a")?)?;
    parts.push(variable(alloc, "b")?)?;
    Ok(Expr::or(parts))
}

fn compared(alloc: Global) -> Result<Expr, Memory> {
    let left = either(alloc)?;
    let right = variable(alloc, "c")?;
    Expr::compare(alloc, CompareOp::Le, left, right)
}

fn built(alloc: Global, kind: &str) -> Result<Expr, Memory> {
    let string = "http://www.w3.org/2001/XMLSchema#string";
    let tagged = "http://www.w3.org/1999/02/22-rdf-syntax-ns#langString";
    match kind {
        "variable" => variable(alloc, "a1"),
        "string" => literal(alloc, "a\"\\\n'", string, ""),
        "tagged" => literal(alloc, "", tagged, "en"),
        "either" => either(alloc),
        _ => compared(alloc),
    }
}

fn has_text(alloc: Global, e: &Expr, text: &str) -> bool {
    match print_expr(alloc, e) {
        Ok(printed) => printed.as_str() == text,
        Err(_) => false,
    }
}

fn is_printed(alloc: Global, kind: &str, text: &str) -> bool {
    match built(alloc, kind) {
        Ok(e) => has_text(alloc, &e, text),
        Err(_) => false,
    }
}

/// A query with this text in parentheses as a condition, where aggregates may stand.
fn query_with(alloc: Global, constraint: &str) -> Result<String, AllocError> {
    let mut text = String::from_str(alloc, "SELECT ?a { } GROUP BY ?a HAVING ( ")?;
    text.push_str(constraint)?;
    text.push_str(" )")?;
    Ok(text)
}

fn has_condition(alloc: Global, query: &Query, text: &str) -> bool {
    match query.having.as_slice() {
        [only] => has_text(alloc, only, text),
        _ => false,
    }
}

/// Whether the first text is of an expression with the second as its printed text.
fn is_read_as(alloc: Global, constraint: &str, printed: &str) -> bool {
    match query_with(alloc, constraint) {
        Ok(text) => match read_tree(alloc, text.as_bytes()) {
            Ok(query) => has_condition(alloc, &query, printed),
            Err(_) => false,
        },
        Err(_) => false,
    }
}

/// Whether an expression that is written so is printed so, and what is printed reads back.
fn reads_back(alloc: Global, written: &str, printed: &str) -> bool {
    is_read_as(alloc, written, printed) && is_read_as(alloc, printed, printed)
}

/// The first line whose text is printed otherwise, or does not read back; else nothing.
fn first_other(alloc: Global, lines: &str) -> &str {
    for line in lines.lines() {
        let (written, printed) = line.split_once(" => ").unwrap_or((line, ""));
        if !reads_back(alloc, written, printed) {
            return line;
        }
    }
    ""
}

#[test]
fn prints_what_is_built(rt: HostRuntime) {
    for &(kind, text) in BUILT.as_slice() {
        assert!(rt; is_printed(rt.alloc(), kind, text), "{kind}");
    }
}

#[test]
fn reads_names_back(rt: HostRuntime) {
    assert_eq!(rt; first_other(rt.alloc(), NAMES), "");
}

#[test]
fn reads_strings_back(rt: HostRuntime) {
    assert_eq!(rt; first_other(rt.alloc(), STRINGS), "");
}

#[test]
fn reads_numbers_back(rt: HostRuntime) {
    assert_eq!(rt; first_other(rt.alloc(), NUMBERS), "");
}

#[test]
fn reads_operators_back(rt: HostRuntime) {
    assert_eq!(rt; first_other(rt.alloc(), OPERATORS), "");
}

#[test]
fn reads_precedence_back(rt: HostRuntime) {
    assert_eq!(rt; first_other(rt.alloc(), PRECEDENCE), "");
}

#[test]
fn reads_calls_back(rt: HostRuntime) {
    assert_eq!(rt; first_other(rt.alloc(), CALLS), "");
}

#[test]
fn reads_aggregates_back(rt: HostRuntime) {
    assert_eq!(rt; first_other(rt.alloc(), AGGREGATES), "");
}

/// A string of two lines in three quotes.
#[test]
fn reads_lines_back(rt: HostRuntime) {
    assert!(rt;
        reads_back(
            rt.alloc(),
            "\"\"\"a\n\"b\"\\\\\"\"\"",
            "\"a\\n\\\"b\\\"\\\\\""
        )
    );
}

/// A text of a piece so often, of what stands in the middle, and of another piece so often.
fn around(
    alloc: Global,
    times: usize,
    open: &str,
    middle: &str,
    close: &str,
) -> Result<String, AllocError> {
    let mut text = String::new(alloc);
    for _ in 0..times {
        text.push_str(open)?;
    }
    text.push_str(middle)?;
    for _ in 0..times {
        text.push_str(close)?;
    }
    Ok(text)
}

/// Texts of a piece so often, of what stands in the middle and of another piece so often, and whether each is
/// read as itself. With the query's own parenthesis 256 are open at one place, which is the limit.
const DEEP: [(usize, &str, &str, &str, bool); 3] = [
    (255, "( ! ", "?a", " )", true),
    (256, "( ! ", "?a", " )", false),
    (2000, "", "( ?a", " || ?a", true),
];

#[test]
fn reads_deep_and_long_back(rt: HostRuntime) -> Result<(), Fail> {
    for &(times, open, middle, close, wanted) in DEEP.as_slice() {
        let mut text = around(rt.alloc(), times, open, middle, close)?;
        if open.is_empty() {
            text.push_str(" )")?;
        }
        let found = is_read_as(rt.alloc(), text.as_str(), text.as_str());
        assert_eq!(rt; found, wanted, "{times}");
    }
    Ok(())
}
