//! Rows as tab-separated values (SPARQL 1.1 Query Results CSV and TSV Formats, section 4).

ghost use Rattle.std.specs.Prelude.{◌≡◌, ◌++◌, ◌∷◌, flat_map, OnOk};
ghost use Rattle.term_core.specs.Mappings.{value};
ghost use Rattle.pattern_page.specs.Results.{tab_escaped, tsv_cell, tabbed, header, line};

use nt_text::push_term;
use term_core::{Memory, Row, Term, Text};

/// Text with each tab written `\t`.
fn push_escaped(out: &mut Vec<u8>, text: &[u8]) -> Result<(), Memory>
    ensures { OnOk result (out.new.items ≡ out.old.items ++ flat_map tab_escaped text.now) }
{
    for byte in text {
        if *byte == b'\t' {
            out.extend_from_slice(b"\\t")?;
        } else {
            out.push(*byte)?;
        }
    }
    Ok(())
}

/// The text of a term, with each tab written `\t`.
fn push_value(out: &mut Vec<u8>, term: &Term) -> Result<(), Memory>
    ensures { OnOk result (out.new.items ≡ out.old.items ++ tsv_cell (Some term.now)) }
{
    let start = out.len();
    push_term(out, term)?;
    if out[start..].contains(&b'\t') {
        let text = out.split_off(start)?;
        push_escaped(out, &text)?;
    }
    Ok(())
}

fn push_cell(out: &mut Vec<u8>, row: &Row, name: &Text) -> Result<(), Memory>
    ensures { OnOk result (out.new.items ≡ out.old.items ++ tsv_cell (value row.now name.now)) }
{
    match row.get(name.bytes()) {
        Some(term) => push_value(out, term),
        None => Ok(()),
    }
}

fn push_more_cells(out: &mut Vec<u8>, row: &Row, names: &[Text]) -> Result<(), Memory>
    ensures { OnOk result (out.new.items ≡ out.old.items ++ flat_map (λ name. 9 ∷ tsv_cell (value row.now name)) names.now) }
{
    for name in names {
        out.push(b'\t')?;
        push_cell(out, row, name)?;
    }
    Ok(())
}

fn push_cells(out: &mut Vec<u8>, row: &Row, names: &[Text]) -> Result<(), Memory>
    ensures { OnOk result (out.new.items ≡ out.old.items ++ tabbed (λ name. tsv_cell (value row.now name)) names.now) }
{
    match names {
        [] => Ok(()),
        [first, rest @ ..] => {
            push_cell(out, row, first)?;
            push_more_cells(out, row, rest)
        }
    }
}

/// Appends a row's line: the names' terms in the order of `names`, with a tab between each two, and a
/// line feed. A cell is empty where the name is unbound. After an `Err` a part of the line may stand
/// at the end of `out`.
pub fn push_line(out: &mut Vec<u8>, names: &[Text], row: &Row) -> Result<(), Memory>
    ensures { OnOk result (out.new.items ≡ out.old.items ++ line names.now row.now) }
{
    push_cells(out, row, names)?;
    out.push(b'\n')?;
    Ok(())
}

fn push_name(out: &mut Vec<u8>, name: &Text) -> Result<(), Memory>
    ensures { OnOk result (out.new.items ≡ out.old.items ++ 63 ∷ name.now) }
{
    out.push(b'?')?;
    out.extend_from_slice(name.bytes())?;
    Ok(())
}

fn push_more_names(out: &mut Vec<u8>, names: &[Text]) -> Result<(), Memory>
    ensures { OnOk result (out.new.items ≡ out.old.items ++ flat_map (λ name. 9 ∷ 63 ∷ name) names.now) }
{
    for name in names {
        out.push(b'\t')?;
        push_name(out, name)?;
    }
    Ok(())
}

fn push_names(out: &mut Vec<u8>, names: &[Text]) -> Result<(), Memory>
    ensures { OnOk result (out.new.items ≡ out.old.items ++ tabbed (λ name. 63 ∷ name) names.now) }
{
    match names {
        [] => Ok(()),
        [first, rest @ ..] => {
            push_name(out, first)?;
            push_more_names(out, rest)
        }
    }
}

/// Appends the first line: each name after its sign `?`, with a tab between each two, and a line feed.
pub fn push_header(out: &mut Vec<u8>, names: &[Text]) -> Result<(), Memory>
    ensures { OnOk result (out.new.items ≡ out.old.items ++ header names.now) }
{
    push_names(out, names)?;
    out.push(b'\n')?;
    Ok(())
}
