//! What one more character makes of a token that is read.

ghost use Rattle.std.specs.Prelude.{◌≡◌, [], ◌∷◌, Some};
ghost use Rattle.sparql_lex.specs.declared.state.State.TheVariants as states;
ghost use Rattle.sparql_lex.specs.declared.state.Mark.TheVariants as marks;
ghost use Rattle.sparql_lex.specs.declared.state.Quoted.TheVariants as quoted;
ghost use Rattle.sparql_lex.specs.Steps as spec;
ghost use Rattle.sparql_lex.specs.Steps.{first_of};

use crate::classes::{
    is_alphanumeric, is_digit, is_hex, is_label_first, is_letter, is_local_escape, is_local_part,
    is_long_plain, is_plain_in, is_variable_part, is_word_part,
};
use crate::state::{Body, Label, Mark, Name, Number, Quoted, State, Tag, Variable};
use term_core::{Kind, is_iri, is_pn, is_pn_base};

fn start_step(c: char) -> Option<State>
    ensures { result ≡ first_of (spec.start_rows c) }
{
    match c {
        'A'..='Z' | 'a'..='z' => Some(State::Name(Name::Word)),
        _ if is_pn_base(c) => Some(State::Name(Name::Prefix)),
        '0'..='9' => Some(State::Number(Number::Integer)),
        ':' => Some(State::Name(Name::Colon)),
        '_' => Some(State::Label(Label::Underscore)),
        '?' => Some(State::Variable(Variable::Question)),
        '$' => Some(State::Variable(Variable::Dollar)),
        '@' => Some(State::Tag(Tag::At)),
        '.' => Some(State::Number(Number::Dot)),
        '<' => Some(State::Quoted(Quoted::Less)),
        '"' | '\'' => Some(State::Quoted(Quoted::Quote { quote: c })),
        '^' => first_mark(true, '^'),
        '&' => first_mark(false, '&'),
        '|' => first_mark(true, '|'),
        '!' | '>' => first_mark(true, '='),
        '{' | '}' | '(' | ')' | '[' | ']' | ',' | ';' | '=' | '+' | '-' | '*' | '/' => {
            Some(State::Mark(Mark::End))
        }
        _ => None,
    }
}

fn first_mark(alone: bool, second: char) -> Option<State>
    ensures { result ≡ Some (states.Mark (marks.First alone second)) }
{
    Some(State::Mark(Mark::First { alone, second }))
}

fn mark_step(mark: Mark, c: char) -> Option<State>
    ensures { result ≡ first_of (spec.mark_rows mark c) }
{
    match mark {
        Mark::First { second, .. } => {
            if c == second {
                Some(State::Mark(Mark::End))
            } else {
                None
            }
        }
        Mark::End => None,
    }
}

fn prefix_step(c: char) -> Option<State>
    ensures { result ≡ first_of (spec.prefix_rows c) }
{
    if is_pn(c) {
        Some(State::Name(Name::Prefix))
    } else if c == '.' {
        Some(State::Name(Name::PrefixDot))
    } else {
        None
    }
}

fn escape_step(c: char) -> Option<State>
    ensures { result ≡ first_of (spec.escape_rows c) }
{
    match c {
        '%' => Some(State::Name(Name::Percent)),
        '\\' => Some(State::Name(Name::Backslash)),
        _ => None,
    }
}

fn local_step(c: char) -> Option<State>
    ensures { result ≡ first_of (spec.local_rows c) }
{
    if is_local_part(c) {
        Some(State::Name(Name::Local))
    } else if c == '.' {
        Some(State::Name(Name::LocalDot))
    } else {
        escape_step(c)
    }
}

/// The state where the test holds.
fn only_if(holds: bool, state: State) -> Option<State>
    ensures { result ≡ first_of ((holds, state) ∷ []) }
{
    if holds { Some(state) } else { None }
}

fn name_step(name: Name, c: char) -> Option<State>
    ensures { result ≡ first_of (spec.name_rows name c) }
{
    match name {
        Name::Word if is_word_part(c) => Some(State::Name(Name::Word)),
        Name::Word | Name::Prefix if c == ':' => Some(State::Name(Name::Colon)),
        Name::Word | Name::Prefix | Name::PrefixDot => prefix_step(c),
        Name::Colon if is_label_first(c) || c == ':' => Some(State::Name(Name::Local)),
        Name::Colon => escape_step(c),
        Name::Local | Name::LocalDot => local_step(c),
        Name::Percent => only_if(is_hex(c), State::Name(Name::PercentDigit)),
        Name::PercentDigit => only_if(is_hex(c), State::Name(Name::Local)),
        Name::Backslash => only_if(is_local_escape(c), State::Name(Name::Local)),
    }
}

fn label_step(label: Label, c: char) -> Option<State>
    ensures { result ≡ first_of (spec.label_rows label c) }
{
    match label {
        Label::Underscore => only_if(c == ':', State::Label(Label::Colon)),
        Label::Colon => only_if(is_label_first(c), State::Label(Label::Part)),
        Label::Part | Label::Dot => {
            if is_pn(c) {
                Some(State::Label(Label::Part))
            } else {
                only_if(c == '.', State::Label(Label::Dot))
            }
        }
    }
}

fn variable_step(variable: Variable, c: char) -> Option<State>
    ensures { result ≡ first_of (spec.variable_rows variable c) }
{
    let goes_on = match variable {
        Variable::Question | Variable::Dollar => is_label_first(c),
        Variable::Part => is_variable_part(c),
    };
    only_if(goes_on, State::Variable(Variable::Part))
}

fn number_step(number: Number, c: char) -> Option<State>
    ensures { result ≡ first_of (spec.number_rows number c) }
{
    if is_digit(c) {
        let next = match number {
            Number::Integer => Number::Integer,
            Number::Dot | Number::Point | Number::Decimal => Number::Decimal,
            Number::Exponent | Number::ExponentSign | Number::Double => Number::Double,
        };
        return Some(State::Number(next));
    }
    match (number, c) {
        (Number::Integer, '.') => Some(State::Number(Number::Point)),
        (Number::Integer | Number::Point | Number::Decimal, 'e' | 'E') => {
            Some(State::Number(Number::Exponent))
        }
        (Number::Exponent, '+' | '-') => Some(State::Number(Number::ExponentSign)),
        _ => None,
    }
}

fn tag_step(tag: Tag, c: char) -> Option<State>
    ensures { result ≡ first_of (spec.tag_rows tag c) }
{
    match tag {
        Tag::At => only_if(is_letter(c), State::Tag(Tag::Primary)),
        Tag::Hyphen => only_if(is_alphanumeric(c), State::Tag(Tag::Subtag)),
        Tag::Primary if is_letter(c) => Some(State::Tag(Tag::Primary)),
        Tag::Subtag if is_alphanumeric(c) => Some(State::Tag(Tag::Subtag)),
        Tag::Primary | Tag::Subtag => only_if(c == '-', State::Tag(Tag::Hyphen)),
    }
}

fn iri_step(c: char) -> Option<State>
    ensures { result ≡ first_of (spec.iri_rows c) }
{
    if is_iri(c) {
        return Some(State::Quoted(Quoted::Inside { body: Body::Iri }));
    }
    match c {
        '>' => Some(State::Quoted(Quoted::End { kind: Kind::Iri })),
        '\\' => Some(State::Quoted(Quoted::Backslash { body: Body::Iri })),
        _ => None,
    }
}

fn short_step(quote: char, behind: State, c: char) -> Option<State>
    ensures { result ≡ first_of (spec.short_rows quote behind c) }
{
    let body = Body::Short { quote };
    if is_plain_in(quote, c) {
        Some(State::Quoted(Quoted::Inside { body }))
    } else if c == quote {
        Some(behind)
    } else {
        only_if(c == '\\', State::Quoted(Quoted::Backslash { body }))
    }
}

fn long_step(quote: char, behind: State, c: char) -> Option<State>
    ensures { result ≡ first_of (spec.long_rows quote behind c) }
{
    let body = Body::Long { quote };
    if is_long_plain(quote, c) {
        Some(State::Quoted(Quoted::Inside { body }))
    } else if c == quote {
        Some(behind)
    } else {
        only_if(c == '\\', State::Quoted(Quoted::Backslash { body }))
    }
}

fn inside_step(body: Body, c: char) -> Option<State>
    ensures { result ≡ first_of (spec.inside_rows body c) }
{
    match body {
        Body::Iri => iri_step(c),
        Body::Short { quote } => {
            let end = State::Quoted(Quoted::End { kind: Kind::String });
            short_step(quote, end, c)
        }
        Body::Long { quote } => {
            let one = State::Quoted(Quoted::OneInside { quote });
            long_step(quote, one, c)
        }
    }
}

fn is_echar(body: Body, c: char) -> bool
    ensures { result ≡ spec.is_echar body c }
{
    match body {
        Body::Iri => false,
        Body::Short { .. } | Body::Long { .. } => {
            matches!(c, 't' | 'b' | 'n' | 'r' | 'f' | '"' | '\'' | '\\')
        }
    }
}

fn backslash_step(body: Body, c: char) -> Option<State>
    ensures { result ≡ first_of (spec.quoted_rows (quoted.Backslash body) c) }
{
    let digits = |left: u8| State::Quoted(Quoted::Digits {
        body,
        left,
        value: 0,
    });
    match c {
        'u' => Some(digits(4)),
        'U' => Some(digits(8)),
        _ => only_if(is_echar(body, c), State::Quoted(Quoted::Inside { body })),
    }
}

fn may_spell(body: Body, code: u32) -> bool
    ensures { result ≡ spec.may_spell body code }
{
    match (char::from_u32(code), body) {
        (Some(c), Body::Iri) => is_iri(c),
        (Some(_), _) => true,
        (None, _) => false,
    }
}

fn digit_step(body: Body, left: u8, value: u32, c: char) -> Option<State>
    ensures { result ≡ first_of (spec.quoted_rows (quoted.Digits body left value) c) }
{
    if !is_hex(c) || value >= 0x11_0000 {
        return None;
    }
    let value = value * 16 + c.to_digit(16).unwrap_or(0);
    if left > 1 {
        Some(State::Quoted(Quoted::Digits {
            body,
            left: left - 1,
            value,
        }))
    } else {
        only_if(
            may_spell(body, value),
            State::Quoted(Quoted::Inside { body }),
        )
    }
}

fn quoted_step(quoted: Quoted, c: char) -> Option<State>
    ensures { result ≡ first_of (spec.quoted_rows quoted c) }
{
    match quoted {
        Quoted::Less if c == '=' => Some(State::Quoted(Quoted::LessEqual)),
        Quoted::Less | Quoted::LessEqual => iri_step(c),
        Quoted::Quote { quote } => {
            let two = State::Quoted(Quoted::TwoQuotes { quote });
            short_step(quote, two, c)
        }
        Quoted::TwoQuotes { quote } => {
            let body = Body::Long { quote };
            only_if(c == quote, State::Quoted(Quoted::Inside { body }))
        }
        Quoted::Inside { body } => inside_step(body, c),
        Quoted::OneInside { quote } => {
            let two = State::Quoted(Quoted::TwoInside { quote });
            long_step(quote, two, c)
        }
        Quoted::TwoInside { quote } => {
            let end = State::Quoted(Quoted::End { kind: Kind::String });
            long_step(quote, end, c)
        }
        Quoted::Backslash { body } => backslash_step(body, c),
        Quoted::Digits { body, left, value } => digit_step(body, left, value, c),
        Quoted::End { .. } => None,
    }
}

/// The state behind one more character, if a token may go on by it.
#[tactic(auto, unfolding(crate::specs::Steps::step))]
pub fn step(state: State, c: char) -> Option<State>
    ensures { result ≡ spec.step state c }
{
    match state {
        State::Start => start_step(c),
        State::Mark(mark) => mark_step(mark, c),
        State::Name(name) => name_step(name, c),
        State::Label(label) => label_step(label, c),
        State::Variable(variable) => variable_step(variable, c),
        State::Number(number) => number_step(number, c),
        State::Tag(tag) => tag_step(tag, c),
        State::Quoted(quoted) => quoted_step(quoted, c),
    }
}
