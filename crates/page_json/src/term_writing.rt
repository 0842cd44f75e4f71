//! From terms and rows to JSON. Each function adds its tokens behind those that stand there.

ghost use Rattle.std.specs.Prelude.{◌≡◌, ◌++◌, ◌∷◌, [], OnOk, codes};
ghost use Rattle.std.specs.FinMap.{entries};
ghost use Rattle.json.specs.Token.{key, string};
ghost use Rattle.json.specs.Tree.{json_tokens, members_tokens};
ghost use Rattle.serde_json.specs.Data.{array, object, no_members};
ghost use Rattle.serde_json.specs.Written.{outline, members_outline};
ghost use Rattle.page_json.specs.Terms.{kind_and_value, typed_members, untagged_members, tagged_members, literal_members, term_json};
ghost use Rattle.page_json.specs.Terms.{row_members, row_items};

use json::Writer;
use term_core::{Memory, Row, Term, Text, XSD_STRING};

/// A member that is a string.
pub(crate) fn write_member(out: &mut Writer, name: &str, value: &str) -> Result<(), Memory>
    ensures ok { OnOk result (out.new.tokens ≡ out.old.tokens ++ key name.now ∷ string value.now ∷ []) }
    ensures before { out.new.before ≡ out.old.before }
{
    out.key(name)?;
    out.string(value)?;
    Ok(())
}

fn write_kind(out: &mut Writer, kind: &str, value: &str) -> Result<(), Memory>
    ensures ok { OnOk result (out.new.tokens
        ≡ out.old.tokens ++ key (codes "type") ∷ string kind.now ∷ key (codes "value") ∷ string value.now ∷ []) }
    ensures before { out.new.before ≡ out.old.before }
{
    write_member(out, "type", kind)?;
    write_member(out, "value", value)
}

/// The last two members of a term, and the end of its object.
fn write_last(out: &mut Writer, kind: &str, value: &str) -> Result<(), Memory>
    ensures ok { OnOk result (out.new.tokens
        ≡ out.old.tokens ++ members_tokens (members_outline (kind_and_value kind.now value.now no_members))) }
    ensures before { out.new.before ≡ out.old.before }
{
    write_kind(out, kind, value)?;
    out.end_object()?;
    Ok(())
}

fn write_typed(out: &mut Writer, lexical: &Text, datatype: &Text) -> Result<(), Memory>
    ensures ok { OnOk result (out.new.tokens
        ≡ out.old.tokens ++ members_tokens (members_outline (typed_members lexical.now datatype.now))) }
    ensures before { out.new.before ≡ out.old.before }
{
    write_member(out, "datatype", datatype.as_str())?;
    write_last(out, "literal", lexical.as_str())
}

#[tactic(auto, using(crate::proofs::Forms::untagged_plain, crate::proofs::Forms::untagged_typed))]
fn write_untagged(out: &mut Writer, lexical: &Text, datatype: &Text) -> Result<(), Memory>
    ensures ok { OnOk result (out.new.tokens
        ≡ out.old.tokens ++ members_tokens (members_outline (untagged_members lexical.now datatype.now))) }
    ensures before { out.new.before ≡ out.old.before }
{
    if datatype.as_str() == XSD_STRING {
        write_last(out, "literal", lexical.as_str())
    } else {
        write_typed(out, lexical, datatype)
    }
}

fn write_tagged(out: &mut Writer, lexical: &Text, tag: &Text) -> Result<(), Memory>
    ensures ok { OnOk result (out.new.tokens
        ≡ out.old.tokens ++ members_tokens (members_outline (tagged_members lexical.now tag.now))) }
    ensures before { out.new.before ≡ out.old.before }
{
    write_kind(out, "literal", lexical.as_str())?;
    write_member(out, "xml:lang", tag.as_str())?;
    out.end_object()?;
    Ok(())
}

fn write_literal(
    out: &mut Writer,
    lexical: &Text,
    datatype: &Text,
    tag: &Text,
) -> Result<(), Memory>
    ensures ok { OnOk result (out.new.tokens
        ≡ out.old.tokens ++ members_tokens (members_outline (literal_members lexical.now datatype.now tag.now))) }
    ensures before { out.new.before ≡ out.old.before }
{
    if tag.as_str().is_empty() {
        write_untagged(out, lexical, datatype)
    } else {
        write_tagged(out, lexical, tag)
    }
}

fn write_term(out: &mut Writer, term: &Term) -> Result<(), Memory>
    ensures ok { OnOk result (out.new.tokens ≡ out.old.tokens ++ json_tokens (outline (term_json term.now))) }
    ensures before { out.new.before ≡ out.old.before }
{
    out.begin_object()?;
    match term {
        Term::Iri(iri) => write_last(out, "uri", iri.as_str()),
        Term::Blank(label) => write_last(out, "bnode", label.as_str()),
        Term::Literal {
            lexical,
            datatype,
            lang,
        } => write_literal(out, lexical, datatype, lang),
    }
}

fn write_row(out: &mut Writer, row: &Row) -> Result<(), Memory>
    ensures ok { OnOk result (out.new.tokens ≡ out.old.tokens ++ json_tokens (outline (object (row_members (entries row.now))))) }
    ensures before { out.new.before ≡ out.old.before }
{
    out.begin_object()?;
    for entry in row.entries() {
        out.key(entry.0.as_str())?;
        write_term(out, &entry.1)?;
    }
    out.end_object()?;
    Ok(())
}

/// An array of rows, each an object of its bound variables.
pub(crate) fn write_rows(out: &mut Writer, rows: &[Row]) -> Result<(), Memory>
    ensures ok { OnOk result (out.new.tokens ≡ out.old.tokens ++ json_tokens (outline (array (row_items rows.now)))) }
    ensures before { out.new.before ≡ out.old.before }
{
    out.begin_array()?;
    for row in rows {
        write_row(out, row)?;
    }
    out.end_array()?;
    Ok(())
}
