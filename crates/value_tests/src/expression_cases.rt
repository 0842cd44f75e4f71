//! Expressions with their values, worked by hand from the sections of SPARQL 1.1 that are named.

/// An expression a line, and behind the arrow its value: `e:error` is the error. Behind `WITH` stand
/// the terms of `?x` and `?y`, or `UNDEF`; `?b` is a blank node, and no other variable is bound. `x:`
/// is the namespace of XML Schema, `e:` that of examples.
pub const CASES: &str = "1/3 => 0.333333333333333333
10/4 => 2.5
7.0 * 2 => 14.0
5 - 7 => -2
-?x => e:error
COALESCE(1/0, 'a') => 'a'
'a' IN (1/0, 'a') => true
2 IN (1/0, 3) => e:error
?x > 5 || ?u => true WITH '07'^^x:integer UNDEF
?x > 5 || ?u => true WITH '7.0'^^x:decimal UNDEF
?x > 5 || ?u => e:error WITH 'abc' UNDEF
?x > 5 || ?u => e:error WITH 3 UNDEF
1 + 1 => 2
1 + 1.0 => 2.0
0.5 + 0.5 => 1.0
1.10 + 0 => 1.1
2 * 3 => 6
2 * 0.5 => 1.0
6 / 2 => 3.0
-7 / 2 => -3.5
1 / 0 => e:error
1 / 0.0 => e:error
0 / 5 => 0.0
2 - 3 - 4 => -5
2 - (3 - 4) => 3
8 / 2 / 2 => 2.0
8 / (2 / 2) => 8.0
2 + 3 * 4 => 14
(2 + 3) * 4 => 20
1 - 1 => 0
+5 => '+5'^^x:integer
+(5) => 5
-(5) => -5
-(-5) => 5
- '07'^^x:integer => -7
+ '07'^^x:integer => 7
+ '007.50'^^x:decimal => 7.5
+'a' => e:error
-true => e:error
+ '5'^^x:byte => 5
-('-0.50'^^x:decimal) => 0.5
170141183460469231731687303715884105727 + 1 => e:error
170141183460469231731687303715884105727 - 1 => 170141183460469231731687303715884105726
-170141183460469231731687303715884105727 - 1 => '-170141183460469231731687303715884105728'^^x:integer
-('-170141183460469231731687303715884105728'^^x:integer) => e:error
170141183460469231731687303715884105727 + 1 - 1 => e:error
170141183460469231731687303715884105727 - 1 + 1 => 170141183460469231731687303715884105727
170141183460469231731687303715884105727 * 2 => e:error
0.000000001 * 0.000000001 => 0.000000000000000001
0.0000000001 * 0.000000001 => e:error
0.0000000002 * 0.000000005 => 0.000000000000000001
170141183460469231731 + 0.000000000000000001 => 170141183460469231731.000000000000000001
170141183460469231732 + 0.000000000000000001 => e:error
1 / 3 * 3 => 0.999999999999999999
2 / 3 => 0.666666666666666666
-2 / 3 => -0.666666666666666666
1 / 1000000000000000000 => 0.000000000000000001
1 / 10000000000000000000 => 0.0
1 / 10000000000000000000000000000000000000 => e:error
1 / 9999999999999999999999999999999999999 => 0.0
170141183460469231731687303715884105727 / 1 => 170141183460469231731687303715884105727.0
170141183460469231731687303715884105727 / 3 => e:error
0.1 + 0.2 => 0.3
1.5 - 1.5 => 0.0
'5'^^x:int + '6'^^x:long => 11
'300'^^x:byte + 1 => e:error
'1e0'^^x:double + 1 => e:error
'1'^^x:boolean + 1 => e:error
1 + 'a' => e:error
'1' + 1 => e:error
e:a + 1 => e:error
?x + ?y => 3 WITH 1 2
?x + 1 => e:error
1 + ?x => e:error
?x * ?y => 6.0 WITH 2.0 3
?x - ?y => -0.5 WITH 1 1.5
' 5'^^x:integer + 1 => e:error
'5.'^^x:decimal + 0 => 5.0
'.5'^^x:decimal + 0 => 0.5
'-.5'^^x:decimal * 2 => -1.0
'+5'^^x:integer + 0 => 5
'0.1234567890123456789'^^x:decimal + 0 => e:error
'0.1234567890123456780'^^x:decimal + 0 => 0.123456789012345678
'170141183460469231731687303715884105728'^^x:integer + 0 => e:error
'07'^^x:integer => '07'^^x:integer
?x => '07'^^x:integer WITH '07'^^x:integer UNDEF
?x => e:error
e:a => e:a
'a'@en => 'a'@en
true => true
5 = 5.0 => true
'05'^^x:integer = 5 => true
5 != 5.0 => false
5 = 6 => false
5 != 6 => true
5 < 6 => true
6 < 5 => false
5 < 5 => false
5 <= 5 => true
5 <= 5.0 => true
6 <= 5 => false
5 >= 5 => true
5 >= 5.5 => false
5 > 5 => false
6 > 5.5 => true
'a' = 'a' => true
'a' = 'b' => false
'a' != 'b' => true
'a' < 'b' => true
'b' < 'a' => false
'a' < 'ab' => true
'Z' < 'a' => true
'a' <= 'a' => true
'a' >= 'b' => false
'é' > 'z' => true
'10' < '9' => true
true = true => true
true = '1'^^x:boolean => true
false = '0'^^x:boolean => true
true = '0'^^x:boolean => false
true != false => true
false < true => true
true < false => false
true <= true => true
true > false => true
'TRUE'^^x:boolean = true => e:error
'TRUE'^^x:boolean = 'TRUE'^^x:boolean => true
'300'^^x:byte = '300'^^x:byte => true
'300'^^x:byte = 300 => e:error
'300'^^x:byte < 5 => e:error
5 = 'a' => e:error
5 != 'a' => e:error
5 = true => e:error
'a' = true => e:error
5 < 'a' => e:error
5 > true => e:error
'a' < true => e:error
'a'@en = 'a'@en => true
'a'@en = 'b'@en => e:error
'a'@en = 'a' => e:error
'a'@en = 'a'@fr => e:error
'a'@en != 'a'@en => false
'a'@en < 'b'@en => e:error
'a'@en <= 'a'@en => e:error
'a' = e:a => false
e:a = e:a => true
e:a = e:b => false
e:a != e:b => true
e:a < e:b => e:error
e:a <= e:a => e:error
e:a >= e:a => e:error
5 = e:a => false
1 + 1 = e:a => false
1 + 1 = 2.0 => true
1 + 1 = 'a' => e:error
1 + 1 != ?b => true
?b = ?b => true
?b = e:a => false
?b = 'a' => false
?b < ?b => e:error
?b <= ?b => e:error
'1'^^e:t = '1'^^e:t => true
'1'^^e:t = '2'^^e:t => e:error
'1'^^e:t = 1 => e:error
'1'^^e:t = e:a => false
'170141183460469231731687303715884105728'^^x:integer = '170141183460469231731687303715884105728'^^x:integer => true
'170141183460469231731687303715884105728'^^x:integer = 5 => e:error
'170141183460469231731687303715884105728'^^x:integer > 5 => e:error
?u = 5 => e:error
?u != 5 => e:error
5 = ?u => e:error
?u < 5 => e:error
(1 = 1) = true => true
(1 = 1) = ('a' = 'b') => false
STR(e:a) = 'http://e/a' => true
DATATYPE(?x) = x:integer => true WITH 5 UNDEF
DATATYPE(?x) = x:integer => false WITH 5.0 UNDEF
true || false => true
false || false => false
true && true => true
true && false => false
?u || true => true
true || ?u => true
?u || false => e:error
false || ?u => e:error
?u || ?u => e:error
?u && false => false
false && ?u => false
?u && true => e:error
true && ?u => e:error
?u && ?u => e:error
false || ?u || true => true
?u || false || false => e:error
true && ?u && false => false
true && ?u && true => e:error
1 || 0 => true
0 || 0.0 => false
'' || 'a' => true
'' || ''@en => false
e:a || true => true
e:a || false => e:error
'abc'^^x:integer || false => false
'0.1234567890123456789'^^x:decimal || false => e:error
'1'^^e:t && false => false
'1'^^e:t && true => e:error
?x > 5 && ?x < 100 => true WITH 50 UNDEF
?x > 5 && ?x < 100 => false WITH 5 UNDEF
?x > 5 && ?x < 100 => false WITH 100.0 UNDEF
?x > 5 && ?x < 100 => e:error WITH 'a' UNDEF
1 + 2 = 3 && 2 < 3 => true
!true => false
!false => true
!0 => true
!1 => false
!0.0 => true
!'' => true
!'a' => false
!'a'@en => false
!''@en => true
!'TRUE'^^x:boolean => true
!'1'^^x:boolean => false
!'0'^^x:boolean => true
!?u => e:error
!e:a => e:error
!?b => e:error
!'300'^^x:byte => true
!'127'^^x:byte => false
!'-1'^^x:unsignedByte => true
!'170141183460469231731687303715884105728'^^x:integer => e:error
!'170141183460469231731687303715884105728'^^x:byte => true
!'1.0'^^x:integer => true
!'x'^^e:t => e:error
!'1e0'^^x:double => e:error
!(1 = 'a') => e:error
!(1 + 1) => false
!STR(e:a) => false
2 IN (1, 2) => true
2 IN (1, 3) => false
2 IN () => false
?u IN () => false
?u NOT IN () => true
?u IN (1) => e:error
?u NOT IN (1) => e:error
2 NOT IN (1, 2) => false
2 NOT IN (1, 3) => true
2 NOT IN (1/0, 2) => false
2 NOT IN (1/0, 3) => e:error
2 IN (2, 1/0) => true
2 IN ('a', 2.0) => true
2 IN ('a') => e:error
2 IN (e:a) => false
e:a IN (e:b, e:a) => true
'a'@en IN ('a'@en) => true
'a'@en IN ('b'@en) => e:error
2 IN (?u, 2) => true
2 IN (?u) => e:error
BOUND(?x) => true WITH 1 UNDEF
BOUND(?u) => false
BOUND(?b) => true
IF(true, 1, 2) => 1
IF(false, 1, 2) => 2
IF(true, 1, 1/0) => 1
IF(false, 1/0, 2) => 2
IF(true, 1/0, 2) => e:error
IF(?u, 1, 2) => e:error
IF(e:a, 1, 2) => e:error
IF(1/0, 1, 2) => e:error
IF('', 1, 2) => 2
IF('300'^^x:byte, 1, 2) => 2
IF(5, 'x'@en, 2) => 'x'@en
COALESCE(?u, ?x) => 5 WITH 5 UNDEF
COALESCE() => e:error
COALESCE(?u, 1/0) => e:error
COALESCE(1, 1/0) => 1
COALESCE(?u, false, true) => false
COALESCE('07'^^x:integer) => '07'^^x:integer
ISIRI(e:a) => true
ISURI(e:a) => true
ISIRI('a') => false
ISIRI(?b) => false
ISIRI(1 + 1) => false
ISIRI(DATATYPE('a')) => true
ISIRI(STR(e:a)) => false
ISIRI(?u) => e:error
ISBLANK(?b) => true
ISBLANK(e:a) => false
ISBLANK('a') => false
ISBLANK(1 = 1) => false
ISBLANK(?u) => e:error
ISLITERAL('a') => true
ISLITERAL(5) => true
ISLITERAL('a'@en) => true
ISLITERAL(e:a) => false
ISLITERAL(?b) => false
ISLITERAL(1 + 1) => true
ISLITERAL(1 = 1) => true
ISLITERAL(?u) => e:error
ISNUMERIC(5) => true
ISNUMERIC(5.0) => true
ISNUMERIC('5') => false
ISNUMERIC('5'@en) => false
ISNUMERIC(e:a) => false
ISNUMERIC(?b) => false
ISNUMERIC(1/3) => true
ISNUMERIC(1 = 1) => false
ISNUMERIC('1e0'^^x:double) => false
ISNUMERIC(?u) => e:error
ISNUMERIC('170141183460469231731687303715884105727'^^x:integer) => true
ISNUMERIC('170141183460469231731687303715884105728'^^x:integer) => false
ISNUMERIC('-170141183460469231731687303715884105728'^^x:integer) => true
ISNUMERIC('-170141183460469231731687303715884105729'^^x:integer) => false
ISNUMERIC('0.123456789012345678'^^x:decimal) => true
ISNUMERIC('0.1234567890123456789'^^x:decimal) => false
ISNUMERIC('9223372036854775807'^^x:long) => true
ISNUMERIC('9223372036854775808'^^x:long) => false
ISNUMERIC('-9223372036854775808'^^x:long) => true
ISNUMERIC('-9223372036854775809'^^x:long) => false
ISNUMERIC('2147483647'^^x:int) => true
ISNUMERIC('2147483648'^^x:int) => false
ISNUMERIC('32767'^^x:short) => true
ISNUMERIC('32768'^^x:short) => false
ISNUMERIC('127'^^x:byte) => true
ISNUMERIC('128'^^x:byte) => false
ISNUMERIC('-128'^^x:byte) => true
ISNUMERIC('-129'^^x:byte) => false
ISNUMERIC('0'^^x:nonNegativeInteger) => true
ISNUMERIC('-1'^^x:nonNegativeInteger) => false
ISNUMERIC('1'^^x:positiveInteger) => true
ISNUMERIC('0'^^x:positiveInteger) => false
ISNUMERIC('0'^^x:nonPositiveInteger) => true
ISNUMERIC('1'^^x:nonPositiveInteger) => false
ISNUMERIC('-1'^^x:negativeInteger) => true
ISNUMERIC('0'^^x:negativeInteger) => false
ISNUMERIC('18446744073709551615'^^x:unsignedLong) => true
ISNUMERIC('18446744073709551616'^^x:unsignedLong) => false
ISNUMERIC('4294967295'^^x:unsignedInt) => true
ISNUMERIC('4294967296'^^x:unsignedInt) => false
ISNUMERIC('65535'^^x:unsignedShort) => true
ISNUMERIC('65536'^^x:unsignedShort) => false
ISNUMERIC('255'^^x:unsignedByte) => true
ISNUMERIC('256'^^x:unsignedByte) => false
STR(e:a) => 'http://e/a'
STR('a'@en) => 'a'
STR(5) => '5'
STR('07'^^x:integer) => '07'
STR(1 + 1) => '2'
STR(1/2) => '0.5'
STR(1 = 1) => 'true'
STR(1 = 2) => 'false'
STR(?b) => e:error
STR(?u) => e:error
STR(CONCAT('a'@en, 'b'@en)) => 'ab'
STR(STR(e:a)) => 'http://e/a'
STR(DATATYPE(5)) => 'http://www.w3.org/2001/XMLSchema#integer'
STR(DATATYPE(CONCAT('a'))) => 'http://www.w3.org/2001/XMLSchema#string'
LANG('a'@en) => 'en'
LANG('a'@EN) => 'en'
LANG('a') => ''
LANG(5) => ''
LANG(1 + 1) => ''
LANG(1 = 1) => ''
LANG(STR(e:a)) => ''
LANG(CONCAT('a'@en-us)) => 'en-us'
LANG(e:a) => e:error
LANG(?b) => e:error
LANG(DATATYPE(1)) => e:error
LANG(?u) => e:error
DATATYPE('a') => x:string
DATATYPE('a'@en) => <http://www.w3.org/1999/02/22-rdf-syntax-ns#langString>
DATATYPE(5) => x:integer
DATATYPE(5.0) => x:decimal
DATATYPE('5'^^x:byte) => x:byte
DATATYPE(1 + 1) => x:integer
DATATYPE(1/1) => x:decimal
DATATYPE(1 = 1) => x:boolean
DATATYPE('1'^^e:t) => e:t
DATATYPE(CONCAT('a'@en)) => <http://www.w3.org/1999/02/22-rdf-syntax-ns#langString>
DATATYPE(STR(5)) => x:string
DATATYPE(DATATYPE(5)) => e:error
DATATYPE(e:a) => e:error
DATATYPE(?b) => e:error
DATATYPE(?u) => e:error
STRLEN('abc') => 3
STRLEN('') => 0
STRLEN('é') => 1
STRLEN('😀a') => 2
STRLEN('a'@en) => 1
STRLEN(STR(12)) => 2
STRLEN(CONCAT('a', 'b')) => 2
STRLEN(5) => e:error
STRLEN(true) => e:error
STRLEN('x'^^e:t) => e:error
STRLEN(e:a) => e:error
STRLEN(?b) => e:error
STRLEN(?u) => e:error
STRSTARTS('abc', 'ab') => true
STRSTARTS('abc', 'b') => false
STRSTARTS('abc', '') => true
STRSTARTS('', 'a') => false
STRSTARTS('ab', 'abc') => false
STRSTARTS('abc', 'abc') => true
STRSTARTS('abc'@en, 'ab') => true
STRSTARTS('abc'@en, 'ab'@en) => true
STRSTARTS('abc'@en, 'ab'@fr) => e:error
STRSTARTS('abc', 'ab'@en) => e:error
STRSTARTS(STR(e:a), 'http') => true
STRSTARTS(5, '5') => e:error
STRSTARTS('5', 5) => e:error
STRSTARTS(e:a, 'h') => e:error
STRSTARTS(?u, 'a') => e:error
STRSTARTS('a', ?u) => e:error
STRENDS('abc', 'bc') => true
STRENDS('abc', 'b') => false
STRENDS('abc', '') => true
STRENDS('c', 'bc') => false
STRENDS('abc'@en, 'c') => true
STRENDS('abc'@en, 'c'@en) => true
STRENDS('abc'@en, 'c'@fr) => e:error
STRENDS('abc', 'c'@en) => e:error
STRENDS(STR(1/2), '.5') => true
STRENDS(1, '1') => e:error
CONTAINS('abc', 'b') => true
CONTAINS('abc', 'd') => false
CONTAINS('abc', '') => true
CONTAINS('', '') => true
CONTAINS('', 'a') => false
CONTAINS('aab', 'ab') => true
CONTAINS('abc', 'abcd') => false
CONTAINS('abc'@en, 'b') => true
CONTAINS('abc'@en, 'b'@en) => true
CONTAINS('abc'@en, 'b'@fr) => e:error
CONTAINS('abc', 'b'@en) => e:error
CONTAINS(e:a, 'a') => e:error
CONCAT() => ''
CONCAT('a') => 'a'
CONCAT('a', 'b') => 'ab'
CONCAT('a'@en) => 'a'@en
CONCAT('a'@en, 'b'@en) => 'ab'@en
CONCAT('a'@en, 'b') => 'ab'
CONCAT('a', 'b'@en) => 'ab'
CONCAT('a'@en, 'b'@fr) => 'ab'
CONCAT('a'@en, 'b'@en, 'c') => 'abc'
CONCAT('a'@en, 'b'@fr, 'c'@en) => 'abc'
CONCAT(''@en, 'a'@en) => 'a'@en
CONCAT(CONCAT('a'@en, 'b'@en), 'c'@en) => 'abc'@en
CONCAT('a', STR(5)) => 'a5'
CONCAT('a', 5) => e:error
CONCAT(true) => e:error
CONCAT(e:a) => e:error
CONCAT(?u) => e:error
CONCAT('a', 1/0) => e:error
ABS(-5) => 5
ABS(5) => 5
ABS(0) => 0
ABS(-0.5) => 0.5
ABS('2.50'^^x:decimal) => 2.5
ABS('-07'^^x:integer) => 7
ABS('-5'^^x:byte) => 5
ABS(1 - 3) => 2
ABS('-129'^^x:byte) => e:error
ABS('-170141183460469231731687303715884105728'^^x:integer) => e:error
ABS('a') => e:error
ABS(true) => e:error
ABS(?u) => e:error
SAMETERM(5, 5) => true
SAMETERM(5, 5.0) => false
SAMETERM(5, '05'^^x:integer) => false
SAMETERM(1 + 1, 2) => true
SAMETERM(2, 1 + 1) => true
SAMETERM(1 + 1, 3 - 1) => true
SAMETERM(1/1, 1.0) => true
SAMETERM('a', 'a'@en) => false
SAMETERM('a'@en, 'a'@en) => true
SAMETERM(e:a, e:a) => true
SAMETERM(e:a, e:b) => false
SAMETERM(e:a, 'http://e/a') => false
SAMETERM(?b, ?b) => true
SAMETERM(?b, e:a) => false
SAMETERM(1 = 1, true) => true
SAMETERM(1 = 1, '1'^^x:boolean) => false
SAMETERM(STR(e:a), 'http://e/a') => true
SAMETERM(DATATYPE(5), x:integer) => true
SAMETERM(CONCAT('a'), 'a') => true
SAMETERM(1 = 2, 2 = 3) => true
SAMETERM(?u, 5) => e:error
SAMETERM(5, ?u) => e:error
COUNT(*) => e:error
SUM(?x) + 1 => e:error WITH 1 UNDEF
COALESCE(MAX(?x), 7) => 7 WITH 1 UNDEF
'2024-03-01T00:00:00Z'^^x:dateTime = '2024-02-29T23:00:00-01:00'^^x:dateTime => true
'2024-03-01T00:00:00'^^x:dateTime = '2024-02-29T23:00:00-01:00'^^x:dateTime => e:error
'2024-02-29'^^x:date < '2024-03-01'^^x:date => true
'2024-02-29'^^x:date != '2024-02-29Z'^^x:date => e:error
!'2024-02-29'^^x:date => e:error";
