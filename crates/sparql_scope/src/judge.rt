//! The first breach at the marks of a group.

ghost use Rattle.std.specs.Prelude.{◌≡◌, [], IfOk, OnOk, List};
ghost use Rattle.std.specs.BTreeMap.{get_by_text};
ghost use Rattle.term_core.specs.Mappings.{Name, same_name};
ghost use Rattle.sparql_tree.specs.Breaches.{first_name, mark_breaches};
ghost use Rattle.sparql_scope.specs.Numbers.{is_other, numbered};

use crate::names::{labelled, marked};
use sparql_tree::Mark;
use std::alloc::Global;
use std::collections::BTreeMap;
use term_core::{Memory, Text};

/// Whether a label has the number of another basic graph pattern than this. If it has none, it gets
/// the number of this one.
fn number_label(
    alloc: Global,
    label: &Text,
    current: usize,
    numbers: &mut BTreeMap<String, usize>,
) -> Result<bool, Memory>
    ensures other { IfOk result (λ other. other ≡ is_other current (get_by_text numbers.old label.now)) }
    ensures numbers { OnOk result ((name : Name)
        → get_by_text numbers.new name ≡ numbered (same_name name label.now) current (get_by_text numbers.old name)) }
{
    if let Some(number) = numbers.get(label.as_str()) {
        return Ok(*number != current);
    }
    numbers.insert(String::from_str(alloc, label.as_str())?, current)?;
    Ok(false)
}

/// The first breach at marks: a label that stands in two basic graph patterns, or a variable that is
/// there already. The time is that of a look-up in a tree for each label.
pub fn first_mark(alloc: Global, marks: &[Mark]) -> Result<Option<Text>, Memory>
    ensures { IfOk result (λ found. found ≡ first_name (mark_breaches [] [] marks.now)) }
{
    let mut numbers = BTreeMap::new(alloc);
    let mut current = 0;
    for mark in marks {
        match mark {
            Mark::Edge => current += 1,
            Mark::Again(name) => return Ok(Some(marked(alloc, name)?)),
            Mark::Label(label) => {
                if number_label(alloc, label, current, &mut numbers)? {
                    return Ok(Some(labelled(alloc, label)?));
                }
            }
        }
    }
    Ok(None)
}
