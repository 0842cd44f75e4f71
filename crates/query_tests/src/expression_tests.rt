//! Expressions in a FILTER, and the trees that they spell: a text a line, and its tree behind an arrow;
//! without an arrow it is no query.

use crate::showing::expect_trees;
use std::alloc::Global;
use std::test::Fail;

/// Operators and their levels.
const OPERATORS: &str = "?a || ?b && ?c => (|| ?a (&& ?b ?c))
?a && ?b || ?c => (|| (&& ?a ?b) ?c)
?a&&?b||!?c => (|| (&& ?a ?b) (! ?c))
(?a || ?b) || ?c => (|| (|| ?a ?b) ?c)
(?a || ?b) && ?c => (&& (|| ?a ?b) ?c)
?a || ?b || ?c => (|| ?a ?b ?c)
?a || ?b || ?c && ?d && ?e => (|| ?a ?b (&& ?c ?d ?e))
?a && (?b && ?c) => (&& ?a (&& ?b ?c))
?a = ?b || ?c => (|| (Eq ?a ?b) ?c)
?a = ?b && ?c != ?d => (&& (Eq ?a ?b) (Ne ?c ?d))
?a < ?b && ?c > ?d => (&& (Lt ?a ?b) (Gt ?c ?d))
?a < ?b + 1 => (Lt ?a (?b +1:integer))
?a > ?b => (Gt ?a ?b)
?a <= 1.5 => (Le ?a 1.5:decimal)
?a >= ?b => (Ge ?a ?b)
?a = !?b => (Eq ?a (! ?b))
?a=-1 => (Eq ?a -1:integer)
(?a = ?b) = ?c => (Eq (Eq ?a ?b) ?c)
?a - ?b - ?c => (?a -?b -?c)
?a - (?b - ?c) => (?a -(?b -?c))
(?a - ?b) - ?c => ((?a -?b) -?c)
?a + ?b - ?c + ?d => (?a +?b -?c +?d)
?a / ?b / ?c => (?a /?b /?c)
?a / ?b * ?c => (?a /?b *?c)
?a / (?b / ?c) => (?a /(?b /?c))
?a + ?b * ?c / ?d => (?a +(?b *?c /?d))
?a * ?b + ?c * ?d => ((?a *?b) +(?c *?d))
?a * (?b + ?c) => (?a *(?b +?c))
?a IN (1, ?b) => (in ?a 1:integer ?b)
?a IN (1, 2, 3) => (in ?a 1:integer 2:integer 3:integer)
?a IN (-3) => (in ?a -3:integer)
?a IN () => (in ?a)
?a NOT IN () => (not in ?a)
?a nOt iN (1) => (not in ?a 1:integer)
?a + 1 IN (2) => (in (?a +1:integer) 2:integer)
?a IN (1) && ?b => (&& (in ?a 1:integer) ?b)
?a NOT IN (1) || ?b => (|| (not in ?a 1:integer) ?b)
?a IN ((1), ?b || ?c) => (in ?a 1:integer (|| ?b ?c))
(?a IN (1)) IN (true) => (in (in ?a 1:integer) true:boolean)";

/// Signs before numbers and before other operands.
const SIGNS: &str = "!?a => (! ?a)
!true => (! true:boolean)
! -5 => (! -5:integer)
! + 5 => (! +5:integer)
!?a * ?b => ((! ?a) *?b)
! ?a = ?b => (Eq (! ?a) ?b)
!(?a = ?b) => (! (Eq ?a ?b))
!(!(?a)) => (! (! ?a))
!?a IN (1) => (in (! ?a) 1:integer)
5 => 5:integer
- 5 => -5:integer
+ 5 => +5:integer
-.5 => -.5:decimal
+007 => +007:integer
- -5 => (- -5:integer)
--5 => (- -5:integer)
- + 5 => (- +5:integer)
+ - 5 => (+ -5:integer)
5 -3 => (5:integer -3:integer)
5 +3 => (5:integer +3:integer)
5-3 => (5:integer -3:integer)
5 - -3 => (5:integer --3:integer)
5 + -3 => (5:integer +-3:integer)
5 + + 3 => (5:integer ++3:integer)
5 - - -3 => (5:integer -(- -3:integer))
5 -3 * 2 => (5:integer -(3:integer *2:integer))
5 -(-3) => (5:integer --3:integer)
5 - -(3) => (5:integer -(- 3:integer))
?a -5 => (?a -5:integer)
?a * -5 => (?a *-5:integer)
-5 * ?a => (-5:integer *?a)
(-3) => -3:integer
-(3) => (- 3:integer)
-(-3) => (- -3:integer)
+(5) => (+ 5:integer)
-?a => (- ?a)
+?a => (+ ?a)
-'a' => (- 'a')
?a - - ?b => (?a -(- ?b))
?a * + ?b => (?a *(+ ?b))
-?a * ?b => ((- ?a) *?b)
-STR(?a) => (- (Str ?a))
((?a)) => ?a";

/// Functions and terms.
const CALLS: &str = "BOUND(?a) => (Bound ?a)
bOuNd(?a) => (Bound ?a)
SAMETERM(?a, ?b) => (SameTerm ?a ?b)
ISIRI(?a) => (IsIri ?a)
ISURI(?a) => (IsIri ?a)
ISBLANK(?a) => (IsBlank ?a)
ISLITERAL(?a) => (IsLiteral ?a)
ISNUMERIC(?a) => (IsNumeric ?a)
IF(?a, 1, true) => (If ?a 1:integer true:boolean)
COALESCE() => (Coalesce)
COALESCE(?a, ?b, ?c, ?d) => (Coalesce ?a ?b ?c ?d)
STR(?a + 1) => (Str (?a +1:integer))
LANG(?a) => (Lang ?a)
DATATYPE(?a) => (Datatype ?a)
STRLEN('a') => (StrLen 'a')
STRSTARTS(?a, 'b') => (StrStarts ?a 'b')
STRENDS(?a, 'b') => (StrEnds ?a 'b')
CONTAINS(?a, 'b') => (Contains ?a 'b')
CONCAT() => (Concat)
CONCAT(?a, 'b') => (Concat ?a 'b')
ABS(-1) => (Abs -1:integer)
STR(STR((?a))) => (Str (Str ?a))
'a' => 'a'
\"a\" => 'a'
'' => ''
'a'@EN-gb => 'a'@en-gb
'b'^^<x:y> => 'b'^<x:y>
'5'^^<http://www.w3.org/2001/XMLSchema#integer> => 5:integer
'''a'b''' => 'a'b'
<x:a> => <x:a>
tRuE => true:boolean
FALSE => false:boolean";

/// Operators and signs that spell no expression; the first text is empty.
const NO_OPERATORS: &str = "
()
?a ||
|| ?a
?a || || ?b
?a &&
&& ?a
?a +
* ?a
?a */ ?b
?a ?b
?a = = ?b
?a = ?b = ?c
?a < ?b < ?c
?a<?b&&?c>?d
- - -5
- - ?a
+ - + 5
! ! ?a
! - ?a
- ! ?a
!
-
5 5
5 - - - -3
?a IN
?a IN ?b
?a IN 1
?a IN (1,)
?a IN (,1)
?a IN (1 2)
?a IN (1
?a IN (1) IN (2)
?a IN (1) = true
?a NOT ?b
?a NOT IN
?a NOT IN ?b
?a NOT (1)
NOT ?a
IN (1)
1 AS ?x
UNDEF
a
*
_:a
?a)
(?a";

/// Calls and terms that are no expression.
const NO_CALLS: &str = "BOUND((?a))
BOUND(1)
BOUND()
BOUND(?a, ?b)
BOUND ?a
BOUND
SAMETERM(?a)
SAMETERM(?a, ?b, ?c)
ISIRI()
ISURI(?a, ?b)
ISBLANK()
ISLITERAL(?a, ?b)
ISNUMERIC()
IF()
IF(?a, 1)
IF(?a, 1, 2, 3)
COALESCE
COALESCE(,)
COALESCE(DISTINCT ?a)
STR()
STR(?a, ?b)
STR ?a
STR(?a
LANG()
DATATYPE(?a, ?b)
STRLEN(*)
STRLEN()
STRSTARTS(?a)
STRENDS(?a, ?b, ?c)
CONTAINS(?a)
CONCAT
CONCAT(?a,)
CONCAT(?a ?b)
ABS()
COUNT(?a)
COUNT(*) + 1
?a IN (COUNT(*))
MIN(?a) = 1
ABS(SUM(?a))
'a'^^<http://www.w3.org/1999/02/22-rdf-syntax-ns#langString>
'a'^^
'a'^^?t
'a'^^'b'
'a'@en@fr
'a'@en^^<x:y>
'a' 'b'
<a>
p:a";

/// Fails where a line is read as another tree in a FILTER, or as none.
fn expect_lines(alloc: Global, lines: &str) -> Result<(), Fail> {
    expect_trees(
        alloc,
        lines,
        ("SELECT * { FILTER(", ") }"),
        ("* { (filter ", ") }"),
    )
}

#[test]
fn reads_operators(rt: HostRuntime) -> Result<(), Fail> {
    expect_lines(rt.alloc(), OPERATORS)
}

#[test]
fn reads_signs(rt: HostRuntime) -> Result<(), Fail> {
    expect_lines(rt.alloc(), SIGNS)
}

#[test]
fn reads_calls_and_terms(rt: HostRuntime) -> Result<(), Fail> {
    expect_lines(rt.alloc(), CALLS)
}

#[test]
fn refuses_expressions(rt: HostRuntime) -> Result<(), Fail> {
    expect_lines(rt.alloc(), NO_OPERATORS)?;
    expect_lines(rt.alloc(), NO_CALLS)
}
