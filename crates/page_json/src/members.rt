//! JSON values taken apart without a copy. An object's members are taken off its front in the byte order of their names.

ghost use Rattle.std.specs.Prelude.{◌≡◌, option_map, option_and_then, is_some};
ghost use Rattle.serde_json.specs.Find.{as_str, as_object, as_array};
ghost use Rattle.serde_json.specs.View.{view, items_view, members_view};
ghost use Rattle.page_json.specs.Reading.{value_in_front, members_behind, are_none, array_member, found_steps};

use serde_json::{Map, Value};
use term_core::Text;

pub(crate) type Object = Map<String, Value>;

pub(crate) fn into_object(value: Value) -> Option<Object>
    ensures { option_map (λ m. members_view m.entries) result ≡ as_object (view value) }
{
    match value {
        Value::Object(members) => Some(members),
        _ => None,
    }
}

pub(crate) fn into_array(value: Value) -> Option<Vec<Value>>
    ensures { option_map (λ v. items_view v.items) result ≡ as_array (view value) }
{
    match value {
        Value::Array(items) => Some(items),
        _ => None,
    }
}

pub(crate) fn into_text(value: Value) -> Option<Text>
    ensures { result ≡ as_str (view value) }
{
    match value {
        Value::String(text) => Some(Text::from_string(text)),
        _ => None,
    }
}

/// Whether the first member has the name.
#[tactic(auto, using(crate::proofs::Fronts::first_named, crate::proofs::Fronts::none_first))]
pub(crate) fn begins_with(object: &Object, name: &str) -> bool
    ensures { result ≡ is_some (value_in_front name.now (members_view object.now.entries)) }
{
    match object.first_key_value() {
        Some((key, _)) => key.as_str() == name,
        None => false,
    }
}

/// Whether all members are taken.
#[tactic(auto, using(crate::proofs::Fronts::done))]
pub(crate) fn is_done(object: &Object) -> bool
    ensures { result ≡ are_none (members_view object.now.entries) }
{
    object.is_empty()
}

/// Takes the first member off where it has the name.
pub(crate) fn take_first(object: &mut Object, name: &str) -> Option<Value>
    ensures value { option_map view result ≡ value_in_front name.now (members_view object.old.entries) }
    ensures rest { members_view object.new.entries ≡ members_behind name.now (members_view object.old.entries) }
{
    if !begins_with(object, name) {
        return None;
    }
    match object.pop_first() {
        Some((_, value)) => Some(value),
        None => None,
    }
}

/// The same of a member that is to be a string.
pub(crate) fn take_text(object: &mut Object, name: &str) -> Option<Text>
    ensures value { result ≡ option_and_then as_str (value_in_front name.now (members_view object.old.entries)) }
    ensures rest { members_view object.new.entries ≡ members_behind name.now (members_view object.old.entries) }
{
    match take_first(object, name) {
        Some(value) => into_text(value),
        None => None,
    }
}

/// The same of a member that is to be an array.
pub(crate) fn take_array(object: &mut Object, name: &str) -> Option<Vec<Value>>
    ensures value { option_map (λ v. items_view v.items) result ≡ array_member name.now (members_view object.old.entries) }
    ensures rest { members_view object.new.entries ≡ members_behind name.now (members_view object.old.entries) }
{
    match take_first(object, name) {
        Some(value) => into_array(value),
        None => None,
    }
}

/// The same of a member that is to be a number of steps.
pub(crate) fn take_steps(object: &mut Object, name: &str) -> Option<u32>
    ensures value { result ≡ option_and_then found_steps (value_in_front name.now (members_view object.old.entries)) }
    ensures rest { members_view object.new.entries ≡ members_behind name.now (members_view object.old.entries) }
{
    match take_first(object, name) {
        Some(value) => steps_of(&value),
        None => None,
    }
}

fn steps_of(value: &Value) -> Option<u32>
    ensures { result ≡ found_steps (view value.now) }
{
    match value.as_u64() {
        Some(steps) if steps < 0x1_0000_0000 => Some(steps as u32),
        _ => None,
    }
}
