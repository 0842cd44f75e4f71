//! The value of a term, and its truth.

ghost use Rattle.std.specs.Prelude.{◌≡◌};
ghost use Rattle.std.specs.Result.{result_ok};
ghost use Rattle.term_core.specs.Moments as moments;
ghost use Rattle.value_table.specs.Values as values;
ghost use Rattle.xsd_num.specs.Values.{number_of, form_in, IsKeptForm};
ghost use Rattle.xsd_time.specs.Values.{moment_found};
ghost use Rattle.expr_value.specs.Views.{value_in, IsKeptValue};

use term_core::{Term, XSD_BOOLEAN, XSD_STRING};
use xsd_num::{Num, NumForm, form_of};
use xsd_time::{Moment, read};

/// A term has no truth, or two terms have no order, or it is not known whether they are equal: the
/// error of the operators of SPARQL.
#[derive(Clone, Copy, Debug, PartialEq, Eq)]
pub struct NoValue;

/// What a term is to the operators (SPARQL 1.1, sections 17.2 and 17.3), as a view that borrows the
/// term's texts. A literal's number or moment is read when the view is made, and not again.
#[derive(Clone, Copy, Debug)]
pub enum Value<'a> {
    /// A number that is kept.
    Numeric(Num),
    /// A literal of a datatype of numbers whose value is past 128 bits or 18 places.
    WideNumber,
    /// A truth value.
    Logical(bool),
    /// A literal of a datatype of numbers, or of that of truth values, whose form is outside the
    /// datatype's grammar or range.
    IllFormed,
    /// A string without a tag.
    Simple(&'a str),
    /// A moment with a zone, a moment without one, or a day.
    Temporal(Moment),
    /// A string with a language tag.
    Tagged { text: &'a str, lang: &'a str },
    /// Any other literal.
    Opaque,
    /// An IRI or a blank node.
    Resource,
}

/// A text of the datatype of truth values (XML Schema 1.1 Datatypes, section 3.3.2.1).
fn boolean_of<'a>(text: &str) -> Value<'a>
    ensures exact { value_in result ≡ values.boolean_of text.now }
    ensures kept { IsKeptValue result }
{
    match text {
        "true" | "1" => Value::Logical(true),
        "false" | "0" => Value::Logical(false),
        _ => Value::IllFormed,
    }
}

/// The moment of a text and a datatype.
fn moment_of(text: &str, datatype: &str) -> Option<Moment>
    ensures { moment_found result ≡ moments.moment_of text.now datatype.now }
{
    read(text.as_bytes(), datatype.as_bytes())
}

/// A literal of any other datatype: a moment, if it is read as one.
fn other_value<'a>(text: &str, datatype: &str) -> Value<'a>
    ensures exact { value_in result
        ≡ values.moment_or_opaque (moments.moment_of text.now datatype.now) }
    ensures kept { IsKeptValue result }
{
    match moment_of(text, datatype) {
        Some(moment) => Value::Temporal(moment),
        None => Value::Opaque,
    }
}

/// A literal whose datatype is none of numbers and that has no tag.
fn text_value<'a>(text: &'a str, datatype: &str) -> Value<'a>
    ensures exact { value_in result ≡ values.text_value text.now datatype.now }
    ensures kept { IsKeptValue result }
{
    if datatype == XSD_STRING {
        Value::Simple(text)
    } else if datatype == XSD_BOOLEAN {
        boolean_of(text)
    } else {
        other_value(text, datatype)
    }
}

/// A literal without a tag, of which the form as a number is read.
fn typed_value<'a>(form: NumForm, text: &'a str, datatype: &str) -> Value<'a>
    requires { IsKeptForm form }
    ensures exact { value_in result ≡ values.typed_value (form_in form) text.now datatype.now }
    ensures kept { IsKeptValue result }
{
    match form {
        NumForm::Exact(number) => Value::Numeric(number),
        NumForm::Wide => Value::WideNumber,
        NumForm::Outside => Value::IllFormed,
        NumForm::Other => text_value(text, datatype),
    }
}

/// The value of a term.
pub fn value_of(t: &Term) -> Value<'_>
    ensures exact { value_in result ≡ values.value_of t.now }
    ensures kept { IsKeptValue result }
{
    match t {
        Term::Iri(_) | Term::Blank(_) => Value::Resource,
        Term::Literal {
            lexical,
            datatype,
            lang,
        } => {
            if lang.bytes().is_empty() {
                let form = form_of(lexical.bytes(), datatype.bytes());
                typed_value(form, lexical.as_str(), datatype.as_str())
            } else {
                Value::Tagged {
                    text: lexical.as_str(),
                    lang: lang.as_str(),
                }
            }
        }
    }
}

/// Whether a number is zero.
fn is_zero(number: Num) -> bool
    ensures { result ≡ values.is_zero (number_of number) }
{
    match number {
        Num::Whole(m) => m == 0,
        Num::Decimal { m, .. } => m == 0,
    }
}

/// The truth of a value (SPARQL 1.1, section 17.2.2, the effective boolean value). `NoValue` comes
/// exactly at a number that is not kept, at a literal that is no number, truth value or string, as a
/// moment, and at an IRI or a blank node; an ill-formed number or truth value is false.
pub fn truth_of_value(value: &Value) -> Result<bool, NoValue>
    ensures { result_ok result ≡ values.truth_of_value (value_in value.now) }
{
    match value {
        Value::Numeric(number) => Ok(!is_zero(*number)),
        Value::Logical(truth) => Ok(*truth),
        Value::IllFormed => Ok(false),
        Value::Simple(text) | Value::Tagged { text, .. } => Ok(!text.is_empty()),
        Value::WideNumber | Value::Temporal(_) | Value::Opaque | Value::Resource => Err(NoValue),
    }
}

/// The truth of a term.
pub fn truth(t: &Term) -> Result<bool, NoValue>
    ensures { result_ok result ≡ values.truth t.now }
{
    truth_of_value(&value_of(t))
}
