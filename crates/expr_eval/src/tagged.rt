//! String literals that grow.

ghost use Rattle.std.specs.Prelude.{◌≡◌, [], IfOk, option_map};
ghost use Rattle.sparql_value.specs.Functions as functions;
ghost use Rattle.sparql_value.specs.MadeTerms as made;
ghost use Rattle.expr_eval.specs.Founds.{term_of, IsKeptFound};
ghost use Rattle.expr_eval.specs.Tagged.{tagging_of, tagging_within, FindsTagged};

use crate::ExprError;
use crate::found::Found;
use crate::functions::string_of;
use std::alloc::Global;
use term_core::{Memory, Term, Text};

/// A string literal that grows. Its tag is empty where there is none.
#[derive(Drop)]
pub struct Tagged {
    pub text: String,
    pub lang: String,
}

impl Tagged {
    /// The empty string.
    pub fn empty(alloc: Global) -> Tagged
        ensures { tagging_of result ≡ ([], []) }
    {
        Tagged {
            text: String::new(alloc),
            lang: String::new(alloc),
        }
    }

    /// The literal, whose texts are taken and not copied.
    pub fn into_term(self, alloc: Global) -> Result<Term, Memory>
        ensures { IfOk result (λ term. term ≡ made.string_term (tagging_of self).0 (tagging_of self).1) }
    {
        let Tagged { text, lang } = self;
        if lang.as_str().is_empty() {
            Term::plain(alloc, Text::from_string(text))
        } else {
            Term::tagged(alloc, Text::from_string(text), Text::from_string(lang))
        }
    }
}

/// A copy of a string and its tag.
fn copied(alloc: Global, text: &str, lang: &str) -> Result<Tagged, Memory>
    ensures { IfOk result (λ string. tagging_of string ≡ (text.now, lang.now)) }
{
    let text = String::from_str(alloc, text)?;
    let lang = String::from_str(alloc, lang)?;
    Ok(Tagged { text, lang })
}

/// A string with another behind it.
fn appended(string: Tagged, text: &str, lang: &str) -> Result<Tagged, Memory>
    ensures { IfOk result (λ whole. tagging_of whole ≡ functions.joined_string (Some (tagging_of string)) (text.now, lang.now)) }
{
    let mut whole = string;
    whole.text.push_str(text)?;
    if whole.lang.as_str() != lang {
        whole.lang.clear();
    }
    Ok(whole)
}

/// A string literal behind what stands before it, if anything does: a tag stays where both have it.
pub fn joined(alloc: Global, before: Option<Tagged>, next: &Found) -> Result<Tagged, ExprError>
    requires { IsKeptFound next.now }
    ensures { FindsTagged
        (option_map (functions.joined_string (tagging_within before)) (functions.as_string (term_of next.now))) result }
{
    let (text, lang) = string_of(next)?;
    match before {
        None => Ok(copied(alloc, text, lang)?),
        Some(string) => Ok(appended(string, text, lang)?),
    }
}
