//! Terms in the ascending order of keys, with what each is against each, written by `tests/cases.py`.

/// A term a line: its kind, its text, the class of its value, its truth, and what it is against the
/// term of each line in turn.
///
/// The kind is `blank`, `iri`, a tag behind `@`, the name of a datatype of XML Schema, or the IRI of
/// another datatype. Classes: `R` an IRI or a blank node, `N` a number, `W` a number past 128 bits or
/// 18 places, `L` a truth value, `I` an ill-formed number or truth value, `S` a string, `M` a moment
/// with a zone, `C` one without, by a clock alone, `D` a day, `T` a string with a tag, `O` another
/// literal. Truth: `t`, `f`, or `e` for the error. Against another term: `<`
/// it is less and not equal, `=` it is equal and not less, `>` the other is less; and where neither is
/// known to be less, `s` it is the same term, `x` it is not equal, `e` whether it is equal is not known
/// either.
pub const CASES: &str =
    "blank|a|R|e|sxxxxxxxxxxxxxxxxxxxxxxxxxxxxxxxxxxxxxxxxxxxxxxxxxxxxxxxxxxxxxxxxxxxxxxxxxxxxxxxxxxxxxxxxxxxxxxxxxx
blank|b|R|e|xsxxxxxxxxxxxxxxxxxxxxxxxxxxxxxxxxxxxxxxxxxxxxxxxxxxxxxxxxxxxxxxxxxxxxxxxxxxxxxxxxxxxxxxxxxxxxxxxxx
iri|http://a/a|R|e|xxsxxxxxxxxxxxxxxxxxxxxxxxxxxxxxxxxxxxxxxxxxxxxxxxxxxxxxxxxxxxxxxxxxxxxxxxxxxxxxxxxxxxxxxxxxxxxxxxx
iri|http://a/true|R|e|xxxsxxxxxxxxxxxxxxxxxxxxxxxxxxxxxxxxxxxxxxxxxxxxxxxxxxxxxxxxxxxxxxxxxxxxxxxxxxxxxxxxxxxxxxxxxxxxxxx
integer|-170141183460469231731687303715884105728|N|t|xxxx=<<<<<<<<<<<<<<<<<<<<<<<<<eeeeeeeeeeeeeeeeeeeeeeeeeeeeeeeeeeeeeeeeeeeeeeeeeeeeeeeeeeeeeeeeeeeee
long|-9223372036854775808|N|t|xxxx>=<<<<<<<<<<<<<<<<<<<<<<<<eeeeeeeeeeeeeeeeeeeeeeeeeeeeeeeeeeeeeeeeeeeeeeeeeeeeeeeeeeeeeeeeeeeee
int|-2147483648|N|t|xxxx>>=<<<<<<<<<<<<<<<<<<<<<<<eeeeeeeeeeeeeeeeeeeeeeeeeeeeeeeeeeeeeeeeeeeeeeeeeeeeeeeeeeeeeeeeeeeee
short|-32768|N|t|xxxx>>>=<<<<<<<<<<<<<<<<<<<<<<eeeeeeeeeeeeeeeeeeeeeeeeeeeeeeeeeeeeeeeeeeeeeeeeeeeeeeeeeeeeeeeeeeeee
byte|-128|N|t|xxxx>>>>=<<<<<<<<<<<<<<<<<<<<<eeeeeeeeeeeeeeeeeeeeeeeeeeeeeeeeeeeeeeeeeeeeeeeeeeeeeeeeeeeeeeeeeeeee
negativeInteger|-1|N|t|xxxx>>>>>=<<<<<<<<<<<<<<<<<<<<eeeeeeeeeeeeeeeeeeeeeeeeeeeeeeeeeeeeeeeeeeeeeeeeeeeeeeeeeeeeeeeeeeeee
decimal|-0.000000000000000001|N|t|xxxx>>>>>>=<<<<<<<<<<<<<<<<<<<eeeeeeeeeeeeeeeeeeeeeeeeeeeeeeeeeeeeeeeeeeeeeeeeeeeeeeeeeeeeeeeeeeeee
decimal|-0.0|N|f|xxxx>>>>>>>====<<<<<<<<<<<<<<<eeeeeeeeeeeeeeeeeeeeeeeeeeeeeeeeeeeeeeeeeeeeeeeeeeeeeeeeeeeeeeeeeeeee
nonPositiveInteger|0|N|f|xxxx>>>>>>>====<<<<<<<<<<<<<<<eeeeeeeeeeeeeeeeeeeeeeeeeeeeeeeeeeeeeeeeeeeeeeeeeeeeeeeeeeeeeeeeeeeee
nonNegativeInteger|0|N|f|xxxx>>>>>>>====<<<<<<<<<<<<<<<eeeeeeeeeeeeeeeeeeeeeeeeeeeeeeeeeeeeeeeeeeeeeeeeeeeeeeeeeeeeeeeeeeeee
unsignedByte|00|N|f|xxxx>>>>>>>====<<<<<<<<<<<<<<<eeeeeeeeeeeeeeeeeeeeeeeeeeeeeeeeeeeeeeeeeeeeeeeeeeeeeeeeeeeeeeeeeeeee
decimal|0.0000000000000000010|N|t|xxxx>>>>>>>>>>>=<<<<<<<<<<<<<<eeeeeeeeeeeeeeeeeeeeeeeeeeeeeeeeeeeeeeeeeeeeeeeeeeeeeeeeeeeeeeeeeeeee
decimal|0.000000000000000002|N|t|xxxx>>>>>>>>>>>>=<<<<<<<<<<<<<eeeeeeeeeeeeeeeeeeeeeeeeeeeeeeeeeeeeeeeeeeeeeeeeeeeeeeeeeeeeeeeeeeeee
decimal|.5|N|t|xxxx>>>>>>>>>>>>>=<<<<<<<<<<<<eeeeeeeeeeeeeeeeeeeeeeeeeeeeeeeeeeeeeeeeeeeeeeeeeeeeeeeeeeeeeeeeeeeee
decimal|1.|N|t|xxxx>>>>>>>>>>>>>>==<<<<<<<<<<eeeeeeeeeeeeeeeeeeeeeeeeeeeeeeeeeeeeeeeeeeeeeeeeeeeeeeeeeeeeeeeeeeeee
positiveInteger|+01|N|t|xxxx>>>>>>>>>>>>>>==<<<<<<<<<<eeeeeeeeeeeeeeeeeeeeeeeeeeeeeeeeeeeeeeeeeeeeeeeeeeeeeeeeeeeeeeeeeeeee
byte|127|N|t|xxxx>>>>>>>>>>>>>>>>=<<<<<<<<<eeeeeeeeeeeeeeeeeeeeeeeeeeeeeeeeeeeeeeeeeeeeeeeeeeeeeeeeeeeeeeeeeeeee
unsignedByte|255|N|t|xxxx>>>>>>>>>>>>>>>>>=<<<<<<<<eeeeeeeeeeeeeeeeeeeeeeeeeeeeeeeeeeeeeeeeeeeeeeeeeeeeeeeeeeeeeeeeeeeee
short|32767|N|t|xxxx>>>>>>>>>>>>>>>>>>=<<<<<<<eeeeeeeeeeeeeeeeeeeeeeeeeeeeeeeeeeeeeeeeeeeeeeeeeeeeeeeeeeeeeeeeeeeee
unsignedShort|65535|N|t|xxxx>>>>>>>>>>>>>>>>>>>=<<<<<<eeeeeeeeeeeeeeeeeeeeeeeeeeeeeeeeeeeeeeeeeeeeeeeeeeeeeeeeeeeeeeeeeeeee
int|2147483647|N|t|xxxx>>>>>>>>>>>>>>>>>>>>=<<<<<eeeeeeeeeeeeeeeeeeeeeeeeeeeeeeeeeeeeeeeeeeeeeeeeeeeeeeeeeeeeeeeeeeeee
unsignedInt|4294967295|N|t|xxxx>>>>>>>>>>>>>>>>>>>>>=<<<<eeeeeeeeeeeeeeeeeeeeeeeeeeeeeeeeeeeeeeeeeeeeeeeeeeeeeeeeeeeeeeeeeeeee
long|9223372036854775807|N|t|xxxx>>>>>>>>>>>>>>>>>>>>>>=<<<eeeeeeeeeeeeeeeeeeeeeeeeeeeeeeeeeeeeeeeeeeeeeeeeeeeeeeeeeeeeeeeeeeeee
unsignedLong|18446744073709551615|N|t|xxxx>>>>>>>>>>>>>>>>>>>>>>>=<<eeeeeeeeeeeeeeeeeeeeeeeeeeeeeeeeeeeeeeeeeeeeeeeeeeeeeeeeeeeeeeeeeeeee
decimal|170141183460469231731.000000000000000000|N|t|xxxx>>>>>>>>>>>>>>>>>>>>>>>>=<eeeeeeeeeeeeeeeeeeeeeeeeeeeeeeeeeeeeeeeeeeeeeeeeeeeeeeeeeeeeeeeeeeeee
integer|170141183460469231731687303715884105727|N|t|xxxx>>>>>>>>>>>>>>>>>>>>>>>>>=eeeeeeeeeeeeeeeeeeeeeeeeeeeeeeeeeeeeeeeeeeeeeeeeeeeeeeeeeeeeeeeeeeeee
boolean|0|L|f|xxxxeeeeeeeeeeeeeeeeeeeeeeeeee==<<eeeeeeeeeeeeeeeeeeeeeeeeeeeeeeeeeeeeeeeeeeeeeeeeeeeeeeeeeeeeeeeee
boolean|false|L|f|xxxxeeeeeeeeeeeeeeeeeeeeeeeeee==<<eeeeeeeeeeeeeeeeeeeeeeeeeeeeeeeeeeeeeeeeeeeeeeeeeeeeeeeeeeeeeeeee
boolean|1|L|t|xxxxeeeeeeeeeeeeeeeeeeeeeeeeee>>==eeeeeeeeeeeeeeeeeeeeeeeeeeeeeeeeeeeeeeeeeeeeeeeeeeeeeeeeeeeeeeeee
boolean|true|L|t|xxxxeeeeeeeeeeeeeeeeeeeeeeeeee>>==eeeeeeeeeeeeeeeeeeeeeeeeeeeeeeeeeeeeeeeeeeeeeeeeeeeeeeeeeeeeeeeee
string||S|f|xxxxeeeeeeeeeeeeeeeeeeeeeeeeeeeeee=<<<<<eeeeeeeeeeeeeeeeeeeeeeeeeeeeeeeeeeeeeeeeeeeeeeeeeeeeeeeeeee
string|10|S|t|xxxxeeeeeeeeeeeeeeeeeeeeeeeeeeeeee>=<<<<eeeeeeeeeeeeeeeeeeeeeeeeeeeeeeeeeeeeeeeeeeeeeeeeeeeeeeeeeee
string|9|S|t|xxxxeeeeeeeeeeeeeeeeeeeeeeeeeeeeee>>=<<<eeeeeeeeeeeeeeeeeeeeeeeeeeeeeeeeeeeeeeeeeeeeeeeeeeeeeeeeeee
string|B|S|t|xxxxeeeeeeeeeeeeeeeeeeeeeeeeeeeeee>>>=<<eeeeeeeeeeeeeeeeeeeeeeeeeeeeeeeeeeeeeeeeeeeeeeeeeeeeeeeeeee
string|a|S|t|xxxxeeeeeeeeeeeeeeeeeeeeeeeeeeeeee>>>>=<eeeeeeeeeeeeeeeeeeeeeeeeeeeeeeeeeeeeeeeeeeeeeeeeeeeeeeeeeee
string|\u{e9}|S|t|xxxxeeeeeeeeeeeeeeeeeeeeeeeeeeeeee>>>>>=eeeeeeeeeeeeeeeeeeeeeeeeeeeeeeeeeeeeeeeeeeeeeeeeeeeeeeeeeee
dateTime|0001-01-01T00:00:00+14:00|M|e|xxxxeeeeeeeeeeeeeeeeeeeeeeeeeeeeeeeeeeee=<<<<<<<<eeeeeeeeeeeeeeeeeeeeeeeeeeeeeeeeeeeeeeeeeeeeeeeeee
dateTime|1969-12-31T23:59:59.999999999Z|M|e|xxxxeeeeeeeeeeeeeeeeeeeeeeeeeeeeeeeeeeee>=<<<<<<<eeeeeeeeeeeeeeeeeeeeeeeeeeeeeeeeeeeeeeeeeeeeeeeeee
dateTime|1970-01-01T00:00:00-00:00|M|e|xxxxeeeeeeeeeeeeeeeeeeeeeeeeeeeeeeeeeeee>>==<<<<<eeeeeeeeeeeeeeeeeeeeeeeeeeeeeeeeeeeeeeeeeeeeeeeeee
dateTime|1970-01-01T00:00:00Z|M|e|xxxxeeeeeeeeeeeeeeeeeeeeeeeeeeeeeeeeeeee>>==<<<<<eeeeeeeeeeeeeeeeeeeeeeeeeeeeeeeeeeeeeeeeeeeeeeeeee
dateTime|2023-12-31T23:59:59Z|M|e|xxxxeeeeeeeeeeeeeeeeeeeeeeeeeeeeeeeeeeee>>>>=<<<<eeeeeeeeeeeeeeeeeeeeeeeeeeeeeeeeeeeeeeeeeeeeeeeeee
dateTime|2023-12-31T20:00:00-05:00|M|e|xxxxeeeeeeeeeeeeeeeeeeeeeeeeeeeeeeeeeeee>>>>>=<<<eeeeeeeeeeeeeeeeeeeeeeeeeeeeeeeeeeeeeeeeeeeeeeeeee
dateTime|2024-02-29T23:00:00-01:00|M|e|xxxxeeeeeeeeeeeeeeeeeeeeeeeeeeeeeeeeeeee>>>>>>==<eeeeeeeeeeeeeeeeeeeeeeeeeeeeeeeeeeeeeeeeeeeeeeeeee
dateTime|2024-03-01T00:00:00Z|M|e|xxxxeeeeeeeeeeeeeeeeeeeeeeeeeeeeeeeeeeee>>>>>>==<eeeeeeeeeeeeeeeeeeeeeeeeeeeeeeeeeeeeeeeeeeeeeeeeee
dateTime|9999-12-31T23:59:59.999999999-14:00|M|e|xxxxeeeeeeeeeeeeeeeeeeeeeeeeeeeeeeeeeeee>>>>>>>>=eeeeeeeeeeeeeeeeeeeeeeeeeeeeeeeeeeeeeeeeeeeeeeeeee
dateTime|1970-01-01T00:00:00|C|e|xxxxeeeeeeeeeeeeeeeeeeeeeeeeeeeeeeeeeeeeeeeeeeeee=<<<eeeeeeeeeeeeeeeeeeeeeeeeeeeeeeeeeeeeeeeeeeeeee
dateTime|2023-06-30T00:00:00|C|e|xxxxeeeeeeeeeeeeeeeeeeeeeeeeeeeeeeeeeeeeeeeeeeeee>=<<eeeeeeeeeeeeeeeeeeeeeeeeeeeeeeeeeeeeeeeeeeeeee
dateTime|2024-03-01T00:00:00|C|e|xxxxeeeeeeeeeeeeeeeeeeeeeeeeeeeeeeeeeeeeeeeeeeeee>>==eeeeeeeeeeeeeeeeeeeeeeeeeeeeeeeeeeeeeeeeeeeeee
dateTime|2024-03-01T00:00:00.000|C|e|xxxxeeeeeeeeeeeeeeeeeeeeeeeeeeeeeeeeeeeeeeeeeeeee>>==eeeeeeeeeeeeeeeeeeeeeeeeeeeeeeeeeeeeeeeeeeeeee
date|0001-01-01|D|e|xxxxeeeeeeeeeeeeeeeeeeeeeeeeeeeeeeeeeeeeeeeeeeeeeeeee=<<<eeeeeeeeeeeeeeeeeeeeeeeeeeeeeeeeeeeeeeeeee
date|1969-12-31|D|e|xxxxeeeeeeeeeeeeeeeeeeeeeeeeeeeeeeeeeeeeeeeeeeeeeeeee>=<<eeeeeeeeeeeeeeeeeeeeeeeeeeeeeeeeeeeeeeeeee
date|2024-01-01|D|e|xxxxeeeeeeeeeeeeeeeeeeeeeeeeeeeeeeeeeeeeeeeeeeeeeeeee>>=<eeeeeeeeeeeeeeeeeeeeeeeeeeeeeeeeeeeeeeeeee
date|9999-12-31|D|e|xxxxeeeeeeeeeeeeeeeeeeeeeeeeeeeeeeeeeeeeeeeeeeeeeeeee>>>=eeeeeeeeeeeeeeeeeeeeeeeeeeeeeeeeeeeeeeeeee
@en||T|f|xxxxeeeeeeeeeeeeeeeeeeeeeeeeeeeeeeeeeeeeeeeeeeeeeeeeeeeeeseeeeeeeeeeeeeeeeeeeeeeeeeeeeeeeeeeeeeeeee
boolean||I|f|xxxxeeeeeeeeeeeeeeeeeeeeeeeeeeeeeeeeeeeeeeeeeeeeeeeeeeeeeeseeeeeeeeeeeeeeeeeeeeeeeeeeeeeeeeeeeeeeee
decimal||I|f|xxxxeeeeeeeeeeeeeeeeeeeeeeeeeeeeeeeeeeeeeeeeeeeeeeeeeeeeeeeseeeeeeeeeeeeeeeeeeeeeeeeeeeeeeeeeeeeeee
decimal|+|I|f|xxxxeeeeeeeeeeeeeeeeeeeeeeeeeeeeeeeeeeeeeeeeeeeeeeeeeeeeeeeeseeeeeeeeeeeeeeeeeeeeeeeeeeeeeeeeeeeeee
nonNegativeInteger|-1|I|f|xxxxeeeeeeeeeeeeeeeeeeeeeeeeeeeeeeeeeeeeeeeeeeeeeeeeeeeeeeeeeseeeeeeeeeeeeeeeeeeeeeeeeeeeeeeeeeeeee
unsignedInt|-1|I|f|xxxxeeeeeeeeeeeeeeeeeeeeeeeeeeeeeeeeeeeeeeeeeeeeeeeeeeeeeeeeeeseeeeeeeeeeeeeeeeeeeeeeeeeeeeeeeeeeee
byte|-129|I|f|xxxxeeeeeeeeeeeeeeeeeeeeeeeeeeeeeeeeeeeeeeeeeeeeeeeeeeeeeeeeeeeseeeeeeeeeeeeeeeeeeeeeeeeeeeeeeeeeee
integer|-170141183460469231731687303715884105729|W|e|xxxxeeeeeeeeeeeeeeeeeeeeeeeeeeeeeeeeeeeeeeeeeeeeeeeeeeeeeeeeeeeeseeeeeeeeeeeeeeeeeeeeeeeeeeeeeeeeee
unsignedByte|-170141183460469231731687303715884105729|I|f|xxxxeeeeeeeeeeeeeeeeeeeeeeeeeeeeeeeeeeeeeeeeeeeeeeeeeeeeeeeeeeeeeseeeeeeeeeeeeeeeeeeeeeeeeeeeeeeeee
int|-2147483649|I|f|xxxxeeeeeeeeeeeeeeeeeeeeeeeeeeeeeeeeeeeeeeeeeeeeeeeeeeeeeeeeeeeeeeseeeeeeeeeeeeeeeeeeeeeeeeeeeeeeee
short|-32769|I|f|xxxxeeeeeeeeeeeeeeeeeeeeeeeeeeeeeeeeeeeeeeeeeeeeeeeeeeeeeeeeeeeeeeeseeeeeeeeeeeeeeeeeeeeeeeeeeeeeee
long|-9223372036854775809|I|f|xxxxeeeeeeeeeeeeeeeeeeeeeeeeeeeeeeeeeeeeeeeeeeeeeeeeeeeeeeeeeeeeeeeeseeeeeeeeeeeeeeeeeeeeeeeeeeeeee
negativeInteger|0|I|f|xxxxeeeeeeeeeeeeeeeeeeeeeeeeeeeeeeeeeeeeeeeeeeeeeeeeeeeeeeeeeeeeeeeeeseeeeeeeeeeeeeeeeeeeeeeeeeeeee
positiveInteger|0|I|f|xxxxeeeeeeeeeeeeeeeeeeeeeeeeeeeeeeeeeeeeeeeeeeeeeeeeeeeeeeeeeeeeeeeeeeseeeeeeeeeeeeeeeeeeeeeeeeeeee
decimal|0.0000000000000000001|W|e|xxxxeeeeeeeeeeeeeeeeeeeeeeeeeeeeeeeeeeeeeeeeeeeeeeeeeeeeeeeeeeeeeeeeeeeseeeeeeeeeeeeeeeeeeeeeeeeeee
http://a/x|1|O|e|xxxxeeeeeeeeeeeeeeeeeeeeeeeeeeeeeeeeeeeeeeeeeeeeeeeeeeeeeeeeeeeeeeeeeeeeseeeeeeeeeeeeeeeeeeeeeeeeee
nonPositiveInteger|1|I|f|xxxxeeeeeeeeeeeeeeeeeeeeeeeeeeeeeeeeeeeeeeeeeeeeeeeeeeeeeeeeeeeeeeeeeeeeeseeeeeeeeeeeeeeeeeeeeeeeee
unsignedByte|1 |I|f|xxxxeeeeeeeeeeeeeeeeeeeeeeeeeeeeeeeeeeeeeeeeeeeeeeeeeeeeeeeeeeeeeeeeeeeeeeseeeeeeeeeeeeeeeeeeeeeeee
double|1.0|O|e|xxxxeeeeeeeeeeeeeeeeeeeeeeeeeeeeeeeeeeeeeeeeeeeeeeeeeeeeeeeeeeeeeeeeeeeeeeeseeeeeeeeeeeeeeeeeeeeeee
integer|1.0|I|f|xxxxeeeeeeeeeeeeeeeeeeeeeeeeeeeeeeeeeeeeeeeeeeeeeeeeeeeeeeeeeeeeeeeeeeeeeeeeseeeeeeeeeeeeeeeeeeeeee
decimal|1.000000000000000000000000000001|W|e|xxxxeeeeeeeeeeeeeeeeeeeeeeeeeeeeeeeeeeeeeeeeeeeeeeeeeeeeeeeeeeeeeeeeeeeeeeeeeseeeeeeeeeeeeeeeeeeeee
byte|128|I|f|xxxxeeeeeeeeeeeeeeeeeeeeeeeeeeeeeeeeeeeeeeeeeeeeeeeeeeeeeeeeeeeeeeeeeeeeeeeeeeseeeeeeeeeeeeeeeeeeee
byte|170141183460469231731687303715884105728|I|f|xxxxeeeeeeeeeeeeeeeeeeeeeeeeeeeeeeeeeeeeeeeeeeeeeeeeeeeeeeeeeeeeeeeeeeeeeeeeeeeseeeeeeeeeeeeeeeeeee
integer|170141183460469231731687303715884105728|W|e|xxxxeeeeeeeeeeeeeeeeeeeeeeeeeeeeeeeeeeeeeeeeeeeeeeeeeeeeeeeeeeeeeeeeeeeeeeeeeeeeseeeeeeeeeeeeeeeeee
unsignedLong|18446744073709551616|I|f|xxxxeeeeeeeeeeeeeeeeeeeeeeeeeeeeeeeeeeeeeeeeeeeeeeeeeeeeeeeeeeeeeeeeeeeeeeeeeeeeeseeeeeeeeeeeeeeeee
decimal|1e0|I|f|xxxxeeeeeeeeeeeeeeeeeeeeeeeeeeeeeeeeeeeeeeeeeeeeeeeeeeeeeeeeeeeeeeeeeeeeeeeeeeeeeeseeeeeeeeeeeeeeee
date|2023-02-29|O|e|xxxxeeeeeeeeeeeeeeeeeeeeeeeeeeeeeeeeeeeeeeeeeeeeeeeeeeeeeeeeeeeeeeeeeeeeeeeeeeeeeeeseeeeeeeeeeeeeee
dateTime|2023-02-29T00:00:00Z|O|e|xxxxeeeeeeeeeeeeeeeeeeeeeeeeeeeeeeeeeeeeeeeeeeeeeeeeeeeeeeeeeeeeeeeeeeeeeeeeeeeeeeeeseeeeeeeeeeeeee
dateTime|2024-01-01|O|e|xxxxeeeeeeeeeeeeeeeeeeeeeeeeeeeeeeeeeeeeeeeeeeeeeeeeeeeeeeeeeeeeeeeeeeeeeeeeeeeeeeeeeseeeeeeeeeeeee
date|2024-01-01Z|O|e|xxxxeeeeeeeeeeeeeeeeeeeeeeeeeeeeeeeeeeeeeeeeeeeeeeeeeeeeeeeeeeeeeeeeeeeeeeeeeeeeeeeeeeseeeeeeeeeeee
int|2147483648|I|f|xxxxeeeeeeeeeeeeeeeeeeeeeeeeeeeeeeeeeeeeeeeeeeeeeeeeeeeeeeeeeeeeeeeeeeeeeeeeeeeeeeeeeeeseeeeeeeeeee
unsignedByte|256|I|f|xxxxeeeeeeeeeeeeeeeeeeeeeeeeeeeeeeeeeeeeeeeeeeeeeeeeeeeeeeeeeeeeeeeeeeeeeeeeeeeeeeeeeeeeseeeeeeeeee
byte|300|I|f|xxxxeeeeeeeeeeeeeeeeeeeeeeeeeeeeeeeeeeeeeeeeeeeeeeeeeeeeeeeeeeeeeeeeeeeeeeeeeeeeeeeeeeeeeseeeeeeeee
short|32768|I|f|xxxxeeeeeeeeeeeeeeeeeeeeeeeeeeeeeeeeeeeeeeeeeeeeeeeeeeeeeeeeeeeeeeeeeeeeeeeeeeeeeeeeeeeeeeseeeeeeee
unsignedInt|4294967296|I|f|xxxxeeeeeeeeeeeeeeeeeeeeeeeeeeeeeeeeeeeeeeeeeeeeeeeeeeeeeeeeeeeeeeeeeeeeeeeeeeeeeeeeeeeeeeeseeeeeee
unsignedShort|65536|I|f|xxxxeeeeeeeeeeeeeeeeeeeeeeeeeeeeeeeeeeeeeeeeeeeeeeeeeeeeeeeeeeeeeeeeeeeeeeeeeeeeeeeeeeeeeeeeseeeeee
long|9223372036854775808|I|f|xxxxeeeeeeeeeeeeeeeeeeeeeeeeeeeeeeeeeeeeeeeeeeeeeeeeeeeeeeeeeeeeeeeeeeeeeeeeeeeeeeeeeeeeeeeeeseeeee
boolean|TRUE|I|f|xxxxeeeeeeeeeeeeeeeeeeeeeeeeeeeeeeeeeeeeeeeeeeeeeeeeeeeeeeeeeeeeeeeeeeeeeeeeeeeeeeeeeeeeeeeeeeseeee
http://a/x|a|O|e|xxxxeeeeeeeeeeeeeeeeeeeeeeeeeeeeeeeeeeeeeeeeeeeeeeeeeeeeeeeeeeeeeeeeeeeeeeeeeeeeeeeeeeeeeeeeeeeseee
@en|a|T|t|xxxxeeeeeeeeeeeeeeeeeeeeeeeeeeeeeeeeeeeeeeeeeeeeeeeeeeeeeeeeeeeeeeeeeeeeeeeeeeeeeeeeeeeeeeeeeeeesee
@fr|a|T|t|xxxxeeeeeeeeeeeeeeeeeeeeeeeeeeeeeeeeeeeeeeeeeeeeeeeeeeeeeeeeeeeeeeeeeeeeeeeeeeeeeeeeeeeeeeeeeeeeese
@en|b|T|t|xxxxeeeeeeeeeeeeeeeeeeeeeeeeeeeeeeeeeeeeeeeeeeeeeeeeeeeeeeeeeeeeeeeeeeeeeeeeeeeeeeeeeeeeeeeeeeeeees";
